// A node in the press's tables, its link and its clause together.
ghost use Rattle.std.specs.Prelude.{◌≡◌, ◌<◌, length, set};
ghost use Rattle.clause.specs.Denote.{literals_of};
ghost use Rattle.sheet.specs.Records.{given, step, node, node_at};
ghost use Rattle.sheet.specs.Denote.{record_of};
ghost use Rattle.press_nodes.specs.Tables.{nodes_in};

use crate::link::Link;
use crate::{clause_table, link};
use clause::Clause;
use sheet::{LineNo, NodeNo, Record};

// Node n of the tables.
#[tactic(auto, using(crate::proofs::Found::reads_leaf, crate::proofs::Found::reads_join))]
pub fn node_at(links: &[Link], clauses: &[Clause], n: NodeNo) -> Record
    requires { (n.0 < length links.now) × (n.0 < length clauses.now) }
    ensures { record_of result ≡ node (node_at (nodes_in links.now clauses.now) n.0) }
{
    let clause = clause_table::clause_at(clauses, n);
    match link::link_at(links, n) {
        Link::Leaf(line) => Record::Given { line, clause },
        Link::Join { pivot, left, right } => Record::Step {
            pivot,
            left,
            right,
            clause,
        },
    }
}

// Node n is a given, from now on.
pub fn put_given(links: &mut [Link], clauses: &mut [Clause], n: NodeNo, line: LineNo, c: Clause)
    requires { (n.0 < length links.old) × (n.0 < length clauses.old) }
    ensures { nodes_in links.new clauses.new ≡ set (nodes_in links.old clauses.old) n.0 (given line.0 (literals_of c)) }
{
    link::put_leaf(links, n, line);
    clause_table::put_clause(clauses, n, c);
}

// Node n is a step, from now on.
pub fn put_step(
    links: &mut [Link],
    clauses: &mut [Clause],
    n: NodeNo,
    pivot: u8,
    left: NodeNo,
    right: NodeNo,
    c: Clause,
)
    requires { (n.0 < length links.old) × (n.0 < length clauses.old) }
    ensures { nodes_in links.new clauses.new ≡ set (nodes_in links.old clauses.old) n.0 (step pivot left.0 right.0 (literals_of c)) }
{
    link::put_join(links, n, pivot, left, right);
    clause_table::put_clause(clauses, n, c);
}
