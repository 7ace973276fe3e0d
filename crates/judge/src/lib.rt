// The rulings on commands in code, on values: from the header, a command and what searches found to what is to be done.
#![tactic(auto)]

pub mod entry;
