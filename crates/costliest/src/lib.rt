// No code: how many edges are in range at most, and that the outline of `cost` has as many, stated in specs/ and proved in proofs/.
#![tactic(auto)]
