// No code: laws about lists that the proofs of several crates cite, in proofs/.
#![tactic(auto)]
