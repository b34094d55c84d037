// No code: the theorem over every list of edits, stated in specs/ and proved in proofs/.
#![tactic(auto)]
