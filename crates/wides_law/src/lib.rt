#![tactic(auto)]

// The activities that a procedure can have, by the words of its body: definitions and laws. No code.
