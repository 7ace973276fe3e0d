// Whether a table is well formed.
#![tactic(auto)]

pub mod fits;
