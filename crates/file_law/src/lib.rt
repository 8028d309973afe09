// The table file of document 01: definitions in specs/, laws in proofs/. No code.

#![tactic(auto)]
