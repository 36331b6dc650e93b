// Lower the units (001): which are collected, and the cuts of their uses.
#![tactic(auto)]

pub mod collect;
pub mod cuts;
