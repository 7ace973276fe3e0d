// Sequences of events over the rules. No code: specs/ has the words, proofs/ the theorems.
#![tactic(auto)]
