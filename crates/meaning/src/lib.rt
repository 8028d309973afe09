// What a tree means: numbers, one clock, states. Definitions in specs/, laws in proofs/. No code.

#![tactic(auto)]
