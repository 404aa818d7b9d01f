// The certified search, once for every cost that is made from the points' least sizes: stated in specs/, proved in proofs/. No code.
#![tactic(auto)]
