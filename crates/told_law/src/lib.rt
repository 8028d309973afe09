#![tactic(auto)]

// A program read to its end: what is noted tells its fault, and what is written holds it. Laws in proofs/. No code.
