// 1. Trim, and the uses of each node in what is kept. Both read links alone.
#![tactic(auto)]

pub mod trim;
pub mod uses;
