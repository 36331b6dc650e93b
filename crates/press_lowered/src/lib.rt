// Lowered nodes: the only literal of a clause, which nodes are lowered and with which literal, in a table, and the cuts of their uses.
#![tactic(auto)]

pub mod edge;
pub mod single;
pub mod table;
