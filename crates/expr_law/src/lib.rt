// What is noted and written of an expression is what the definition says: laws in proofs/. No code.
#![tactic(auto)]
