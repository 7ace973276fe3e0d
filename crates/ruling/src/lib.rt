// The ruling on an event, from the table's bytes.
#![tactic(auto)]

pub mod rule;
