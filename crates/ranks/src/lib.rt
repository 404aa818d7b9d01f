// Place q of numbers sorted downward: definitions and laws, no code.
#![tactic(auto)]
