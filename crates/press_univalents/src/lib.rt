// Lower the univalents (001): which are lowered, rebuilding on the way.
#![tactic(auto)]

pub mod rise;
mod weigh;
