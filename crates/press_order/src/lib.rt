// 5. Order (002, bottom-up pebbling, children heuristic): "Starting from the sink, the premises are placed first, then the node itself,
// each node once."
#![tactic(auto)]

ghost use Rattle.std.specs.Prelude.{◌≡◌, cond, List, ◌∷◌, ℕ, ◌<◌, length, get_or};
ghost use Rattle.sheet.specs.Editions.{capacity};
ghost use Rattle.press_nodes.specs.Tables.{links_in, Links};
ghost use Rattle.press_nodes.specs.Numbers.{numbers_in};
ghost use Rattle.press_spec.specs.Order.{right_first, place, order_from};
ghost use Rattle.press_order.specs.Placing.{Numbered, Stands, Placing};

use press_nodes::link;
use press_nodes::link::Link;
use press_trim::uses;
use sheet::NodeNo;
use sheet::limits::CAPACITY;

// The premises of a step, as they are placed.
#[derive(Clone, Copy)]
struct Premises {
    first: NodeNo,
    second: NodeNo,
}

// "Of two premises the one with more uses in the pressed proof goes first; equal: left."
fn in_turn(counts: &[u16], left: NodeNo, right: NodeNo) -> Premises
    requires { (left.0 < length counts.now) × (right.0 < length counts.now) }
    ensures first { result.first.0 ≡ cond (right_first (λ m. get_or counts.now m 0) left.0 right.0) right.0 left.0 }
    ensures second { result.second.0 ≡ cond (right_first (λ m. get_or counts.now m 0) left.0 right.0) left.0 right.0 }
{
    let l = left.index();
    let r = right.index();
    if counts[l] < counts[r] {
        return Premises {
            first: right,
            second: left,
        };
    }
    Premises {
        first: left,
        second: right,
    }
}

// Node n comes next in the order, which has `count` nodes so far: how many it has then. Table and count are no struct: both callers are lent the table.
pub fn put_next(n: NodeNo, numbers: &mut [Option<NodeNo>], count: u16) -> u16
    requires { (n.0 < length numbers.old) × (count < capacity) }
    ensures { (order : List ℕ) → Stands (numbers_in numbers.old) count order → Stands (numbers_in numbers.new) result (n.0 ∷ order) }
{
    numbers[n.index()] = Some(NodeNo(count));
    count + 1
}

// Places node n, after its premises. "A parent's number in step 4 is always smaller than its child's": the node number falls at each call.
fn place(
    links: &[Link],
    counts: &[u16],
    n: NodeNo,
    numbers: &mut [Option<NodeNo>],
    count: u16,
) -> u16
    requires { Placing links.now counts.now (numbers_in numbers.old) n.0 count }
    ensures { (order : List ℕ) (d : ℕ) → Stands (numbers_in numbers.old) count order → n.0 < d → Stands (numbers_in numbers.new) result (place (links_in links.now) (λ m. get_or counts.now m 0) d n.0 order) }
{
    if numbers[n.index()].is_some() {
        return count;
    }
    let found = link::link_at(links, n);
    let Link::Join { left, right, .. } = found else {
        return put_next(n, numbers, count);
    };
    let premises = in_turn(counts, left, right);
    let with_first = place(links, counts, premises.first, numbers, count);
    let with_both = place(links, counts, premises.second, numbers, with_first);
    put_next(n, numbers, with_both)
}

// 4 and 5: the places of what a node reaches, by its uses there, and how many there are.
pub fn order_from(links: &[Link], from: NodeNo, numbers: &mut [Option<NodeNo>]) -> u16
    requires links { Links links.now }
    requires numbers_len { (length numbers.old ≡ length links.now) × (from.0 < length links.now) }
    ensures numbers { Numbered (numbers_in numbers.new) (order_from (links_in links.now) from.0) }
    ensures count { result ≡ length (order_from (links_in links.now) from.0) }
{
    let mut counts = [0u16; CAPACITY];
    let n = links.len();
    uses::uses_from(links, from, &mut counts[..n]);
    numbers.fill(None);
    place(links, &counts[..n], from, numbers, 0)
}
