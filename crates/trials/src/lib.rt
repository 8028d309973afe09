#![tactic(auto)]

// The trials of the document, computed from the definitions. No code.
