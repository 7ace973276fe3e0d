// Laws that more than one crate cites. No code: specs/ has the words, proofs/ the laws.
#![tactic(auto)]
