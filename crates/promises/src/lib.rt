// No code: what is promised beyond the contracts of the single calls, stated in specs/ and proved in proofs/.
#![tactic(auto)]
