// A ruling's change carried out on the lent bytes.
#![tactic(auto)]

pub mod change;
