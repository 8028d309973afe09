#![tactic(auto)]

// The places and the numbers of a program's tree are those of a short text: definitions and laws, no code.
