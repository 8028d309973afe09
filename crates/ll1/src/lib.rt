#![tactic(auto)]

// Grammars as data, and what holds of every grammar that one word of looking ahead is enough for: definitions in specs/, laws in proofs/. No code.
