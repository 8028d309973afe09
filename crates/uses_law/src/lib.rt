#![tactic(auto)]

// How the statements of a procedure's body use names (P7), met word by word: definitions in specs/, laws in proofs/. No code.
