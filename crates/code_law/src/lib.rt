#![tactic(auto)]

// What the numbers that C gets tell: definitions and laws alone.
