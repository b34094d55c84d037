// No code: how the seam count and the flag decide at the poles, stated in specs/ and proved in proofs/.
#![tactic(auto)]
