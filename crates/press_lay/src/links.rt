// The links of an order: all that its peak is found from.
ghost use Rattle.std.specs.Prelude.{◌≡◌, List, ℕ, ◌≤◌, ◌<◌, length, get_or, set};
ghost use Rattle.press_nodes.specs.Tables.{links_in, Links};
ghost use Rattle.press_nodes.specs.Numbers.{numbers_in};
ghost use Rattle.press_spec.specs.Links.{link_at, Parents};
ghost use Rattle.press_order.specs.Placing.{Numbered, Orderly};
ghost use Rattle.press_lay.specs.Laying.{relink, laid_links, HasPlace, place_in, Laying};

use press_nodes::link;
use press_nodes::link::Link;
use sheet::NodeNo;

// The new number of a node: its place in the order.
fn number_of(numbers: &[Option<NodeNo>], n: NodeNo) -> NodeNo
    requires { (n.0 < length numbers.now) × HasPlace (numbers_in numbers.now) n.0 }
    ensures { result.0 ≡ place_in (numbers_in numbers.now) n.0 }
{
    numbers[n.index()].unwrap()
}

// Node n at its place, its parents under their new numbers.
fn lay_link(links: &[Link], numbers: &[Option<NodeNo>], n: NodeNo, laid: &mut [Link])
    requires n_in_bounds { (n.0 < length links.now) × HasPlace (numbers_in numbers.now) n.0 × (get_or (numbers_in numbers.now) n.0 0 ≤ length laid.old) }
    requires parents { Parents (HasPlace (numbers_in numbers.now)) (link_at (links_in links.now) n.0) }
    ensures { links_in laid.new ≡ set (links_in laid.old) (place_in (numbers_in numbers.now) n.0) (relink (place_in (numbers_in numbers.now)) (link_at (links_in links.now) n.0)) }
{
    let k = number_of(numbers, n);
    let found = link::link_at(links, n);
    match found {
        Link::Leaf(line) => {
            link::put_leaf(laid, k, line);
        }
        Link::Join { pivot, left, right } => {
            let l = number_of(numbers, left);
            let r = number_of(numbers, right);
            link::put_join(laid, k, pivot, l, r);
        }
    }
}

// The links of the order that stands in the table of numbers: `laid` has room for just these.
pub fn lay_links(links: &[Link], numbers: &[Option<NodeNo>], laid: &mut [Link])
    requires links { Links links.now }
    requires laying { Laying links.now (numbers_in numbers.now) (length laid.old) }
    requires numbers_len { length numbers.now ≡ length links.now }
    ensures { (order : List ℕ) → Orderly links.now order → Numbered (numbers_in numbers.now) order → length order ≡ length laid.old → links_in laid.new ≡ laid_links (links_in links.now) order }
{
    for n in 0..links.len() {
        if numbers[n].is_some() {
            lay_link(links, numbers, NodeNo(n as u16), laid);
        }
    }
}
