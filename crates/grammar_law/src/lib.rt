#![tactic(auto)]

// The grammar in bytes, for a reader of tables: definitions in specs/, laws in proofs/. No code.
