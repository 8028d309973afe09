#![tactic(auto)]

// What the grammar gives every tree: lists with statements, and small numbers. Laws in proofs/. No code.
