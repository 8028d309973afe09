// What a text's program is once it lies in bytes: a definition, no code.
#![tactic(auto)]
