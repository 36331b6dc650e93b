// "From the sink down by number, collect each node whose clause is a single literal, that has two or more uses, and whose literal's opposite hasn't been
// collected."
ghost use Rattle.std.specs.Prelude.{◌≡◌, List, ℕ, suc, ◌≤◌, ◌<◌, length, get_or};
ghost use Rattle.clause.specs.Denote.{width, literals_of};
ghost use Rattle.sheet.specs.Editions.{capacity};
ghost use Rattle.base.specs.Folds.{fall};
ghost use Rattle.press_spec.specs.Lower.{lowered_ones, none_lowered};
ghost use Rattle.press_spec.specs.Units.{collect_turn};
ghost use Rattle.press_nodes.specs.declared.link.Link.{Link};
ghost use Rattle.press_nodes.specs.Tables.{nodes_in};
ghost use Rattle.press_lowered.specs.Table.{low_in};
ghost use Rattle.press_units.specs.Turns.{collect_in};

use clause::Clause;
use press_lowered::{single, table};
use press_nodes::clause_table;
use press_reach::literal;
use press_reach::literal::Literal;
use sheet::NodeNo;

// A node that is used only once stays where it is.
const SEVERAL: u16 = 2;

// The turn at node n, where `owed` holds the opposites of what is collected so far: what it holds then.
#[tactic(auto, unfolding(crate::specs::Turns::collect_in, press_spec::specs::Units::collect, press_spec::specs::Lower::lower, press_lowered::specs::Table::lowered_in))]
fn collect_turn(
    variables: u8,
    clauses: &[Clause],
    uses: &[u16],
    n: NodeNo,
    low: &mut [Option<Literal>],
    owed: Clause,
) -> Clause
    requires variables_le_width { variables ≤ width }
    requires n_in_bounds { (n.0 < length uses.now) × (n.0 < length clauses.now) × (length low.old ≡ length uses.now) }
    ensures { lowered_ones (low_in low.new) (literals_of result) ≡ collect_in variables clauses.now uses.now n.0 (lowered_ones (low_in low.old) (literals_of owed)) }
{
    if uses[n.index()] < SEVERAL {
        return owed;
    }
    let own = clause_table::clause_at(clauses, n);
    let Some(l) = single::single(variables, own) else {
        return owed;
    };
    if literal::holds(l, owed) {
        return owed;
    }
    table::put_lowered(low, n, l);
    literal::adding(literal::opposite(l), owed)
}

// The units of what `from` reaches, by the uses of each node there.
pub fn collect_units(
    variables: u8,
    clauses: &[Clause],
    uses: &[u16],
    from: NodeNo,
    low: &mut [Option<Literal>],
)
    requires variables_le_width { variables ≤ width }
    requires clauses_len { (length clauses.now ≡ length uses.now) × (length low.old ≡ length uses.now) × (from.0 < length uses.now) × (length uses.now ≤ capacity) }
    ensures { (links : List Link) (count : ℕ → ℕ) → length links ≡ length uses.now → ((m : ℕ) → get_or uses.now m 0 ≡ count m) → low_in low.new ≡ (fall (collect_turn variables (nodes_in links clauses.now) count) (suc from.0) (none_lowered (length links))).low }
{
    low.fill(None);
    let mut owed = clause::nothing();
    for i in (0..from.0 + 1).rev() {
        owed = collect_turn(variables, clauses, uses, NodeNo(i), low, owed);
    }
}
