// One split budget for several jobs: definitions and laws, no code.
#![tactic(auto)]
