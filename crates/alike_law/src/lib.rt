#![tactic(auto)]

// Look-ups that differ in the numbers of variables alone note the same faults: laws, no code.
