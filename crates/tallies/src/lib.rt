// RULES 24.6 to 24.11: what a log adds up to, as counters.
#![tactic(auto)]

pub mod count;
pub mod counters;
pub mod sum;
