// Claims about what a program means on which nothing stands: they hold the definitions to their rules. No code.

#![tactic(auto)]
