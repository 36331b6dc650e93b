// The definitions of the replay, and their laws: no code.
#![tactic(auto)]
