// No code: document 01's marked cases, stated of the definitions in specs/ and proved in proofs/.
#![tactic(auto)]
