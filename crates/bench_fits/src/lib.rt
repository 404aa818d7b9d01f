// The starred bench fits: one list in specs/, shown true of the definitions in proofs/. No code.
#![tactic(auto)]
