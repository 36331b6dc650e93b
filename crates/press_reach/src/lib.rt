// What recycling knows of a node on its way: it is reached if it is not lost, and its set S stands in a table of clauses.
#![tactic(auto)]

ghost use Rattle.std.specs.Prelude.{◌≡◌, ◌<◌, length, get_or, set, replicate, None};
ghost use Rattle.clause.specs.Denote.{literals_of};
ghost use Rattle.press_spec.specs.Recycle.{unreached, reached};
ghost use Rattle.press_nodes.specs.declared.fate.Fate.TheVariants.{Kept};
ghost use Rattle.press_reach.specs.Reaches.{reach_in, reaches_in};

use clause::Clause;
use press_nodes::fate::Fate;
use press_nodes::{clause_table, fate};
use sheet::NodeNo;

pub mod edges;
pub mod fit;
pub mod literal;

// The set of node n, if it is reached.
#[tactic(auto, using(crate::proofs::Reaches::reach_here), unfolding(crate::specs::Reaches::reach_in, crate::specs::Reaches::reach_of))]
pub fn reach_at(fates: &[Fate], sets: &[Clause], n: NodeNo) -> Option<Clause>
    requires { (n.0 < length fates.now) × (n.0 < length sets.now) }
    ensures { reach_in result ≡ get_or (reaches_in fates.now sets.now) n.0 unreached }
{
    match fates[n.index()] {
        Fate::Lost => None,
        Fate::Kept(_) => Some(clause_table::clause_at(sets, n)),
    }
}

// Node n is reached with the set s, from now on; its cut is not known yet.
#[tactic(auto, using(crate::proofs::Reaches::reach_put))]
pub fn put_reach(fates: &mut [Fate], sets: &mut [Clause], n: NodeNo, s: Clause)
    requires { (n.0 < length fates.old) × (n.0 < length sets.old) }
    ensures reaches { reaches_in fates.new sets.new ≡ set (reaches_in fates.old sets.old) n.0 (reached (literals_of s)) }
    ensures fates { fates.new ≡ set fates.old n.0 (Kept None) }
{
    clause_table::put_clause(sets, n, s);
    fate::put_fate(fates, n, None);
}

// Node n alone is reached, with the set s.
pub fn reach_only(fates: &mut [Fate], sets: &mut [Clause], n: NodeNo, s: Clause)
    requires { (n.0 < length fates.old) × (n.0 < length sets.old) }
    ensures { reaches_in fates.new sets.new ≡ set (replicate (length fates.old) unreached) n.0 (reached (literals_of s)) }
{
    fates.fill(Fate::Lost);
    put_reach(fates, sets, n, s);
}
