// CRC-32 as definitions and laws alone (specs/, proofs/); the code that meets them is the crate crc.

#![tactic(auto)]
