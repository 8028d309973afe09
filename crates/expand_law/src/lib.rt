// Accounts of an expansion that need no expansion: definitions and laws. No code.

#![tactic(auto)]
