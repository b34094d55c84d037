// No code: the ways in which a region is made, stated in specs/, and that each makes one, in proofs/.
#![tactic(auto)]
