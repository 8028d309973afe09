#![tactic(auto)]

// The bytes that the walk over a body writes are the program: laws, no code.
