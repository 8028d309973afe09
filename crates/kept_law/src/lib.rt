// Laws: what the tree of a text has, and its expansion too. No code.

#![tactic(auto)]
