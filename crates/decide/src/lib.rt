// The rules in code, on task values only: states, fates, pending bits, turns. Each function equals its definition in rules/specs or here.
#![tactic(auto)]

pub mod fates;
pub mod pending;
pub mod states;
pub mod turns;
