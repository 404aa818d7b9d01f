// Residuals, their least size over a box, costs and bounds: definitions in specs/, their laws in proofs/. No code.
#![tactic(auto)]
