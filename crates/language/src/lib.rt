#![tactic(auto)]

// The language of document 01: definitions in specs/, laws in proofs/. No code.
