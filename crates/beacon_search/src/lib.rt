// The search over costs and bounds that are added up beacon by beacon: the law in specs/, its proof in proofs/. No code.
#![tactic(auto)]
