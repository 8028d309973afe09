// KISS text of a table: definitions in specs/, laws in proofs/. No code.

#![tactic(auto)]
