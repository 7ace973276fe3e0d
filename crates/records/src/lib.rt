// Records of bytes to values and back.
#![tactic(auto)]

pub mod events;
pub mod header;
pub mod nexus;
pub mod tasks;
