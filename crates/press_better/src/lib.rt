// 5, of two orders: "Work out both orders and emit the one with the smaller peak; equal: the old one."
#![tactic(auto)]

ghost use Rattle.std.specs.Prelude.{◌≡◌, List, ℕ, ◌≤◌, ◌<◌, length};
ghost use Rattle.sheet.specs.Editions.{most_nodes};
ghost use Rattle.press_spec.specs.Order.{order_from};
ghost use Rattle.press_spec.specs.Better.{better_of, better};
ghost use Rattle.clause.specs.declared.Clause.{Clause};
ghost use Rattle.press_nodes.specs.Tables.{links_in, nodes_in, Links};
ghost use Rattle.press_nodes.specs.Numbers.{numbers_in};
ghost use Rattle.press_order.specs.Placing.{Numbered, Orderly};
ghost use Rattle.press_lay.specs.Laying.{laid_links, Laying};
ghost use Rattle.press_peak.specs.Peaks.{peak_of_links};

use press_nodes::link::{BLANK, Link};
use press_spec::Order;
use sheet::NodeNo;
use sheet::limits::MOST_NODES;

// Which of the two orders was taken, and how many nodes it has.
#[derive(Clone, Copy)]
pub struct Chosen {
    pub order: Order,
    pub nodes: u16,
}

// The peak of the order of so many nodes that stands in the table of numbers. It is a matter of the links, which are laid out for it alone.
fn peak_by(links: &[Link], numbers: &[Option<NodeNo>], nodes: u16) -> u16
    requires links { Links links.now }
    requires laying { Laying links.now (numbers_in numbers.now) nodes }
    requires numbers_len { (length numbers.now ≡ length links.now) × (nodes ≤ most_nodes) }
    ensures { (order : List ℕ) → Orderly links.now order → Numbered (numbers_in numbers.now) order → length order ≡ nodes → result ≡ peak_of_links 0 (laid_links (links_in links.now) order) }
{
    let n = nodes as usize;
    let mut laid = [BLANK; MOST_NODES];
    press_lay::links::lay_links(links, numbers, &mut laid[..n]);
    press_peak::peak_of_links(&laid[..n])
}

// The places of what a node reaches, in the better order; whatever the clauses are, since an order and its peak are a matter of the links.
pub fn better_order(links: &[Link], from: NodeNo, numbers: &mut [Option<NodeNo>]) -> Chosen
    requires links { Links links.now }
    requires numbers_len { (length numbers.old ≡ length links.now) × (from.0 < length links.now) × (length (order_from (links_in links.now) from.0) ≤ most_nodes) }
    ensures order { (clauses : List Clause) → result.order ≡ better_of (nodes_in links.now clauses) from.0 }
    ensures numbers { (clauses : List Clause) → Numbered (numbers_in numbers.new) (better (nodes_in links.now clauses) from.0) }
    ensures nodes { (clauses : List Clause) → result.nodes ≡ length (better (nodes_in links.now clauses) from.0) }
{
    let nodes = press_order::order_from(links, from, numbers);
    let bottom_up = peak_by(links, numbers, nodes);
    press_top_down::top_down(links, from, numbers);
    let top_down = peak_by(links, numbers, nodes);
    if top_down < bottom_up {
        return Chosen {
            order: Order::TopDown,
            nodes,
        };
    }
    press_order::order_from(links, from, numbers);
    Chosen {
        order: Order::BottomUp,
        nodes,
    }
}
