// Peeling, round after round: definitions in specs/, what holds of the rounds and their labels in proofs/. No code.
#![tactic(auto)]
