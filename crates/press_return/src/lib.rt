// The return of what was lowered: "in order of collection with literal l: if the conclusion lacks the opposite of l it stays; else if the rebuilt unit
// lacks l, that unit becomes the conclusion; else resolve the two on l's variable .., the new step numbered above all so far."
#![tactic(auto)]

ghost use Rattle.std.specs.Prelude.{◌≡◌, ℕ, ◌≤◌, ◌<◌, length, get_or, set, take};
ghost use Rattle.clause.specs.Denote.{literals_of};
ghost use Rattle.sheet.specs.Editions.{capacity};
ghost use Rattle.press_spec.specs.Rebuild.{built};
ghost use Rattle.press_spec.specs.Lower.{lowered, low_at, return_of, resolving, come_back, come_back_all};
ghost use Rattle.press_nodes.specs.Tables.{nodes_in};
ghost use Rattle.press_reach.specs.Literals.{literal_in};
ghost use Rattle.press_lowered.specs.Table.{low_in};
ghost use Rattle.press_return.specs.Returns.{return_in, ended_in};

use clause::Clause;
use press_lowered::table;
use press_nodes::link::Link;
use press_nodes::{clause_table, node};
use press_reach::literal;
use press_reach::literal::Literal;
use sheet::NodeNo;

// How many nodes of the tables are in use, and which of them is the conclusion. The tables are arrays with room for the most nodes, as memory is fixed,
// so the count stands beside them.
#[derive(Clone, Copy)]
pub struct Ended {
    pub nodes: u16,
    pub last: NodeNo,
}

#[derive(Clone, Copy)]
pub enum Return {
    ConclusionStays,
    UnitConcludes,
    Resolves,
}

// No unit that is lowered lacks its literal (`units-hold`), so the middle case never comes up.
#[tactic(auto, unfolding(crate::specs::Returns::return_in, press_spec::specs::Lower::return_of))]
fn return_of(l: Literal, unit: Clause, conclusion: Clause) -> Return
    ensures { return_in result ≡ return_of (literal_in l) (literals_of unit) (literals_of conclusion) }
{
    if !literal::holds(literal::opposite(l), conclusion) {
        return Return::ConclusionStays;
    }
    if !literal::holds(l, unit) {
        return Return::UnitConcludes;
    }
    Return::Resolves
}

// Node n resolves the unit u, which has l, with the conclusion, from now on: ".. the unit on the left if l is positive, else on the right .."
fn put_resolving(
    links: &mut [Link],
    clauses: &mut [Clause],
    n: NodeNo,
    l: Literal,
    u: NodeNo,
    last: NodeNo,
)
    requires { (length clauses.old ≡ length links.old) × (n.0 < length links.old) × (u.0 < length links.old) × (last.0 < length links.old) }
    ensures { let s = nodes_in links.old clauses.old in nodes_in links.new clauses.new ≡ set s n.0 (resolving (literal_in l) s u.0 last.0) }
{
    let unit = clause_table::clause_at(clauses, u);
    let conclusion = clause_table::clause_at(clauses, last);
    match l {
        Literal::Plus(p) => {
            let result = clause::resolve(unit, conclusion, p);
            node::put_step(links, clauses, n, p, u, last, result);
        }
        Literal::Minus(p) => {
            let result = clause::resolve(conclusion, unit, p);
            node::put_step(links, clauses, n, p, last, u, result);
        }
    }
}

// The unit u, which was lowered with l, comes back.
fn come_back(links: &mut [Link], clauses: &mut [Clause], at: Ended, l: Literal, u: NodeNo) -> Ended
    requires clauses_len { (length clauses.old ≡ length links.old) × (length links.old ≤ capacity) }
    requires nodes_in_bounds { (at.nodes ≤ length links.old) × (at.last.0 < at.nodes) × (u.0 < at.nodes) }
    requires clauses_in_bounds { length (come_back (lowered (literal_in l)) u.0 (ended_in at (nodes_in links.old clauses.old))).nodes ≤ length links.old }
    ensures clauses_after { ended_in result (nodes_in links.new clauses.new) ≡ come_back (lowered (literal_in l)) u.0 (ended_in at (nodes_in links.old clauses.old)) }
    ensures fits { (at.nodes ≤ result.nodes) × (result.nodes ≤ length links.old) × (result.last.0 < result.nodes) }
{
    let Ended { nodes, last } = at;
    let unit = clause_table::clause_at(clauses, u);
    let conclusion = clause_table::clause_at(clauses, last);
    match return_of(l, unit, conclusion) {
        Return::ConclusionStays => at,
        Return::UnitConcludes => Ended { nodes, last: u },
        Return::Resolves => {
            let n = NodeNo(nodes);
            put_resolving(links, clauses, n, l, u, last);
            Ended {
                nodes: nodes + 1,
                last: n,
            }
        }
    }
}

// The turn at node n: its stand-in comes back, if n was lowered.
fn return_turn(
    links: &mut [Link],
    clauses: &mut [Clause],
    low: &[Option<Literal>],
    stand_ins: &[u16],
    n: NodeNo,
    at: Ended,
) -> Ended
    requires clauses_len { (length clauses.old ≡ length links.old) × (length links.old ≤ capacity) }
    requires n_in_bounds { (n.0 < length low.now) × (n.0 < length stand_ins.now) × (at.nodes ≤ length links.old) × (at.last.0 < at.nodes) × (get_or stand_ins.now n.0 0 < at.nodes) }
    requires clauses_in_bounds { length (come_back (low_at (low_in low.now) n.0) (get_or stand_ins.now n.0 0) (ended_in at (nodes_in links.old clauses.old))).nodes ≤ length links.old }
    ensures clauses_after { ended_in result (nodes_in links.new clauses.new) ≡ come_back (low_at (low_in low.now) n.0) (get_or stand_ins.now n.0 0) (ended_in at (nodes_in links.old clauses.old)) }
    ensures fits { (at.nodes ≤ result.nodes) × (result.nodes ≤ length links.old) × (result.last.0 < result.nodes) }
{
    let Some(l) = table::lowered_at(low, n) else {
        return at;
    };
    let u = press_rebuild::stand_in(stand_ins, n);
    come_back(links, clauses, at, l, u)
}

// Everything that was lowered comes back, from the conclusion `from` down, to the first `nodes` nodes of the tables, which were rebuilt with these stand-ins.
pub fn come_back_all(
    links: &mut [Link],
    clauses: &mut [Clause],
    nodes: u16,
    low: &[Option<Literal>],
    stand_ins: &[u16],
    from: NodeNo,
) -> Ended
    requires clauses_len { (length clauses.old ≡ length links.old) × (length links.old ≤ capacity) × (nodes ≤ length links.old) }
    requires low_len { (length low.now ≡ nodes) × (length stand_ins.now ≡ nodes) × (from.0 < nodes) × ((m : ℕ) → get_or stand_ins.now m 0 ≤ m) }
    requires from_in_bounds { length (come_back_all (low_at (low_in low.now)) (built (take nodes (nodes_in links.old clauses.old)) stand_ins.now) from.0).nodes ≤ length links.old }
    ensures clauses_after { ended_in result (nodes_in links.new clauses.new) ≡ come_back_all (low_at (low_in low.now)) (built (take nodes (nodes_in links.old clauses.old)) stand_ins.now) from.0 }
    ensures fits { (result.nodes ≤ length links.old) × (result.last.0 < result.nodes) }
{
    let last = press_rebuild::stand_in(stand_ins, from);
    let mut at = Ended { nodes, last };
    for i in (0..from.0 + 1).rev() {
        at = return_turn(links, clauses, low, stand_ins, NodeNo(i), at);
    }
    at
}
