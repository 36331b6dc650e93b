// "A node with two or more uses, all on one and the same literal l, is lowered if its rebuilt clause holds l, the rest of that clause lies in D, and neither l
// nor its opposite is in D. Its uses are cut and the opposite of l joins D."
ghost use Rattle.std.specs.Prelude.{◌≡◌, ◌<◌, length, get_or};
ghost use Rattle.clause.specs.Denote.{literals_of};
ghost use Rattle.press_spec.specs.Lower.{lowered_ones};
ghost use Rattle.press_spec.specs.Univalents.{often, lowerable, weigh};
ghost use Rattle.press_nodes.specs.Tables.{clauses_in};
ghost use Rattle.press_reach.specs.Literals.{literal_in};
ghost use Rattle.press_lowered.specs.Table.{low_in};
ghost use Rattle.press_used.specs.Table.{use_at};

use clause::Clause;
use press_lowered::table;
use press_nodes::clause_table;
use press_reach::literal;
use press_reach::literal::Literal;
use press_used::table as used_table;
use press_used::table::Used;
use sheet::NodeNo;

// D is `owed`, the opposites of what is lowered so far.
#[tactic(auto, unfolding(press_spec::specs::Univalents::lowerable))]
fn lowerable(l: Literal, c: Clause, owed: Clause) -> bool
    ensures { result ≡ lowerable (literal_in l) (literals_of c) (literals_of owed) }
{
    literal::holds(l, c)
        && clause::inside(literal::lacking(l, c), owed)
        && !literal::holds(l, owed)
        && !literal::holds(literal::opposite(l), owed)
}

// Node n, which is rebuilt, and whose two or more uses are all on l: it is lowered or stays. Answers what is owed then.
#[tactic(auto, unfolding(press_spec::specs::Univalents::weigh, press_spec::specs::Lower::lower))]
fn weigh_often(
    clauses: &[Clause],
    stand_ins: &[u16],
    n: NodeNo,
    l: Literal,
    low: &mut [Option<Literal>],
    owed: Clause,
) -> Clause
    requires { (n.0 < length stand_ins.now) × (n.0 < length low.old) × (get_or stand_ins.now n.0 0 < length clauses.now) }
    ensures { lowered_ones (low_in low.new) (literals_of result) ≡ weigh n.0 (often (literal_in l)) (clauses_in clauses.now (get_or stand_ins.now n.0 0)) (lowered_ones (low_in low.old) (literals_of owed)) }
{
    let m = press_rebuild::stand_in(stand_ins, n);
    let rebuilt = clause_table::clause_at(clauses, m);
    if lowerable(l, rebuilt, owed) {
        table::put_lowered(low, n, l);
        return literal::adding(literal::opposite(l), owed);
    }
    owed
}

// The turn at node n, which is rebuilt.
#[tactic(auto, unfolding(press_used::specs::Table::use_in, press_spec::specs::Univalents::weigh))]
pub(crate) fn weigh_turn(
    clauses: &[Clause],
    used: &[Used],
    stand_ins: &[u16],
    n: NodeNo,
    low: &mut [Option<Literal>],
    owed: Clause,
) -> Clause
    requires { (n.0 < length used.now) × (n.0 < length stand_ins.now) × (n.0 < length low.old) × (get_or stand_ins.now n.0 0 < length clauses.now) }
    ensures { lowered_ones (low_in low.new) (literals_of result) ≡ weigh n.0 (use_at used.now n.0) (clauses_in clauses.now (get_or stand_ins.now n.0 0)) (lowered_ones (low_in low.old) (literals_of owed)) }
{
    match used_table::used_at(used, n) {
        Used::Often(l) => weigh_often(clauses, stand_ins, n, l, low, owed),
        Used::Unused | Used::Once(_) | Used::Mixed => owed,
    }
}
