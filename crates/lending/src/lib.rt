// No code. Here stood laws for walks by hand of functions that are lent a row or a tally; today's Rattle generates those walks.
#![tactic(auto)]
