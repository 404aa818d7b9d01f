// The searches of the windows of a store, one after the other: definitions in specs/, the laws in proofs/. No code.
#![tactic(auto)]
