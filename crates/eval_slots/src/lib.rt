// What the slots of a chunk cost: no code, only laws.
#![tactic(auto)]
