// The calls that are open while a body is read, and what its formals stand for: definitions in specs/, laws in proofs/. No code.
#![tactic(auto)]
