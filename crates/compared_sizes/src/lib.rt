#![tactic(auto)]

// The definitions against the yardstick: computed listings. No code.
