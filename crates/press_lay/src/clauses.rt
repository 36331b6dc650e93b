// The clauses of an order: they are laid out once it is known which order it is to be.
ghost use Rattle.std.specs.Prelude.{◌≡◌, List, ℕ, ◌≤◌, length};
ghost use Rattle.sheet.specs.Editions.{capacity};
ghost use Rattle.press_nodes.specs.Tables.{clauses_in};
ghost use Rattle.press_nodes.specs.Numbers.{numbers_in};
ghost use Rattle.press_order.specs.Placing.{Numbered};
ghost use Rattle.press_lay.specs.Laying.{HasPlace, place_in};

use clause::Clause;
use press_nodes::clause_table;
use sheet::NodeNo;

// The clause of each node that has a place, at that place: some order stands in the table of numbers, and `laid` has room for its clauses.
pub fn lay_clauses(clauses: &[Clause], numbers: &[Option<NodeNo>], laid: &mut [Clause])
    requires by_index { (order : List ℕ) × Numbered (numbers_in numbers.now) order × (length laid.old ≡ length order) }
    requires clauses_len { (length clauses.now ≡ length numbers.now) × (length numbers.now ≤ capacity) }
    ensures { (n : ℕ) → HasPlace (numbers_in numbers.now) n → clauses_in laid.new (place_in (numbers_in numbers.now) n) ≡ clauses_in clauses.now n }
{
    for (i, place) in numbers.iter().enumerate() {
        if let Some(k) = *place {
            let n = NodeNo(i as u16);
            let clause = clause_table::clause_at(clauses, n);
            clause_table::put_clause(laid, k, clause);
        }
    }
}
