// Which literal each node is used on, in what is kept: +p for a left parent, -p for a right one.
#![tactic(auto)]

pub mod table;
pub mod walk;
