// RULES 24.6 to 24.8, 24.12 and 25.2: logs of event records, played and counted.
#![tactic(auto)]

pub mod play;
pub mod reader;
pub mod stretch;
