#![tactic(auto)]

// Texts with procedures and their listings, by the definitions. No code.
