// Clauses in a table, one for each node.
ghost use Rattle.std.specs.Prelude.{◌≡◌, ◌<◌, length};
ghost use Rattle.clause.specs.Denote.{literals_of};
ghost use Rattle.press_nodes.specs.Tables.{clauses_in, changed};

use clause::Clause;
use sheet::NodeNo;

// The clause of node n.
#[tactic(auto, using(crate::proofs::Tables::clauses_found))]
pub fn clause_at(clauses: &[Clause], n: NodeNo) -> Clause
    requires { n.0 < length clauses.now }
    ensures { literals_of result ≡ clauses_in clauses.now n.0 }
{
    clauses[n.index()]
}

// Node n has the clause c, from now on.
#[tactic(auto, using(crate::proofs::Tables::clauses_put))]
pub fn put_clause(clauses: &mut [Clause], n: NodeNo, c: Clause)
    requires { n.0 < length clauses.old }
    ensures { clauses_in clauses.new ≡ changed n.0 (literals_of c) (clauses_in clauses.old) }
{
    clauses[n.index()] = c;
}
