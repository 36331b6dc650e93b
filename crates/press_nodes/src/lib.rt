// The press's tables: a link, a clause and a fate for each node. They stand apart, since trim, uses, orders and marks are lent links alone; and in no
// struct of lent slices, since each function that is lent such a struct would have to say of each slice that it stays the one that was lent. That links are
// sound is a clause (`Links`) and no invariant of a struct: the passes write the tables in turn, so each call would make such a struct anew, and each clause
// would speak of its field.
#![tactic(auto)]

pub mod clause_table;
pub mod fate;
pub mod link;
pub mod node;
