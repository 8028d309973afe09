// What an expansion counts by itself, and what is noted of it: definitions and laws. No code.

#![tactic(auto)]
