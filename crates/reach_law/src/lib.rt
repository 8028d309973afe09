// Reachable states, their count and their numbers, as definitions and laws alone (specs/, proofs/).

#![tactic(auto)]
