// The search for the range of every coordinate, over any cost and bound: definitions in specs/, what it promises and its proof in proofs/.
// No code.
#![tactic(auto)]
