#![tactic(auto)]

// What is noted of statements is noted in text order, and of a statement with statements inside where its reader meets it: laws. No code.
