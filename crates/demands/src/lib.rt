// The mission's three demands over bytes: specs/ and proofs/.
#![tactic(auto)]
