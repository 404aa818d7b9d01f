// How much one record of a store can change the cost of a solved fit: the law in specs/, its proof in proofs/. No code.
#![tactic(auto)]
