// RULES 26: worked cases, and others, as data in bytes. No code: specs/ has the cases and the makers of their
// records, proofs/ one theorem over all cases and one over the makers.
#![tactic(auto)]
