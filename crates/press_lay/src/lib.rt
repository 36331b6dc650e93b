// 5. Order: the nodes laid out as they were placed, each under a new number. "Nodes are given and resolution records, numbered from 0 ..
// Parents and drops name nodes."
#![tactic(auto)]

ghost use Rattle.std.specs.Prelude.{◌≡◌, List, ℕ, length};
ghost use Rattle.press_nodes.specs.Tables.{nodes_in, Nodes};
ghost use Rattle.press_nodes.specs.Numbers.{numbers_in};
ghost use Rattle.press_spec.specs.Order.{laid};
ghost use Rattle.press_order.specs.Placing.{Numbered, Orderly};
ghost use Rattle.press_lay.specs.Laying.{Laying};

pub mod clauses;
pub mod links;

use clause::Clause;
use press_nodes::link::Link;
use sheet::NodeNo;

// The nodes of the order that stands in the table of numbers: the pressed tables have room for just these.
pub fn lay(
    links: &[Link],
    clauses: &[Clause],
    numbers: &[Option<NodeNo>],
    pressed_links: &mut [Link],
    pressed_clauses: &mut [Clause],
)
    requires nodes { Nodes links.now clauses.now }
    requires laying { Laying links.now (numbers_in numbers.now) (length pressed_links.old) }
    requires numbers_len { (length numbers.now ≡ length links.now) × (length pressed_clauses.old ≡ length pressed_links.old) }
    ensures { (order : List ℕ) → Orderly links.now order → Numbered (numbers_in numbers.now) order → length order ≡ length pressed_links.old → nodes_in pressed_links.new pressed_clauses.new ≡ laid (nodes_in links.now clauses.now) order }
{
    links::lay_links(links, numbers, pressed_links);
    clauses::lay_clauses(clauses, numbers, pressed_clauses);
}
