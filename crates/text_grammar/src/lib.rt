// Formats of byte texts: definitions in specs/, laws in proofs/. No code.

#![tactic(auto)]
