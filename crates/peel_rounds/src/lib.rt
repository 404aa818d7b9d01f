// How the rounds of peeling follow each other in lent memory: what they tell, and that they are the definition's. No code.
#![tactic(auto)]
