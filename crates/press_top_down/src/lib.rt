// 5, a second order (002, top-down pebbling): "At each turn, of the unplaced nodes whose parents are all placed, take the one after which most
// nodes can be dropped at once; ties go to the smallest number, as nodes were numbered when the order began."
#![tactic(auto)]

ghost use Rattle.std.specs.Prelude.{◌≡◌, List, ◌∷◌, ℕ, ◌+◌, ◌≤◌, ◌<◌, length, get_or, set, replicate, None};
ghost use Rattle.sheet.specs.Editions.{capacity};
ghost use Rattle.press_spec.specs.Links.{link_at};
ghost use Rattle.press_spec.specs.Trim.{trim, naming, uses_in, uses_from};
ghost use Rattle.press_spec.specs.TopDown.{top_down};
ghost use Rattle.press_nodes.specs.Tables.{links_in, Links};
ghost use Rattle.press_nodes.specs.Numbers.{numbers_in};
ghost use Rattle.press_order.specs.Placing.{Numbered, Stands};
ghost use Rattle.press_scores.specs.Rows.{scores_in};
ghost use Rattle.press_top_down.specs.Scores.{score_in};
ghost use Rattle.press_top_down.specs.Renewed.{Tables, Users, Scored};

mod renew;
mod score;

use crate::renew::{Chains, Sides};
use crate::score::State;
use press_nodes::fate::Side;
use press_nodes::link;
use press_nodes::link::Link;
use press_scores::SCORE_WORDS;
use press_trim::uses;
use sheet::NodeNo;
use sheet::limits::CAPACITY;

// One place fewer names node l, and one fewer node r.
fn take_uses(ahead: &mut [u16], l: NodeNo, r: NodeNo)
    requires l_in_bounds { (l.0 < length ahead.old) × (r.0 < length ahead.old) }
    requires by_index { (m : ℕ) → naming m l.0 + naming m r.0 ≤ get_or ahead.old m 0 }
    ensures { (m : ℕ) → get_or ahead.new m 0 + (naming m l.0 + naming m r.0) ≡ get_or ahead.old m 0 }
{
    let i = l.index();
    let j = r.index();
    ahead[i] -= 1;
    ahead[j] -= 1;
}

// The places in node n, which is placed now, are in no unplaced node.
fn close(links: &[Link], n: NodeNo, ahead: &mut [u16])
    requires links { Links links.now }
    requires ahead_len { (length ahead.old ≡ length links.now) × (n.0 < length links.now) }
    requires by_index { (m : ℕ) → uses_in m (link_at (links_in links.now) n.0) ≤ get_or ahead.old m 0 }
    ensures { (m : ℕ) → get_or ahead.new m 0 + uses_in m (link_at (links_in links.now) n.0) ≡ get_or ahead.old m 0 }
{
    if let Link::Join { left, right, .. } = link::link_at(links, n) {
        take_uses(ahead, left, right);
    }
}

// Node n comes next in the order, which has `count` nodes so far: how many it has then. What is changed is lent table by table: of a struct of `&mut`
// slices each function would have to say that they stay the ones that were lent.
fn take(
    links: &[Link],
    n: NodeNo,
    left: &mut [u8],
    ahead: &mut [u16],
    numbers: &mut [Option<NodeNo>],
    count: u16,
) -> u16
    requires links { Links links.now }
    requires left_len { (length left.old ≡ length links.now) × (length ahead.old ≡ length links.now) × (length numbers.old ≡ length links.now) × (n.0 < length links.now) × (count < capacity) }
    requires by_index { (m : ℕ) → uses_in m (link_at (links_in links.now) n.0) ≤ get_or ahead.old m 0 }
    ensures left { left.new ≡ set left.old n.0 0 }
    ensures ahead { (m : ℕ) → get_or ahead.new m 0 + uses_in m (link_at (links_in links.now) n.0) ≡ get_or ahead.old m 0 }
    ensures numbers { (order : List ℕ) → Stands (numbers_in numbers.old) count order → Stands (numbers_in numbers.new) result (n.0 ∷ order) }
{
    left[n.index()] = 0;
    close(links, n, ahead);
    press_order::put_next(n, numbers, count)
}

// No node is placed, and each has its score.
fn begin(
    links: &[Link],
    from: NodeNo,
    left: &mut [u8],
    ahead: &mut [u16],
    numbers: &mut [Option<NodeNo>],
    rows: &mut [u64],
)
    requires tables { Tables links.now left.old ahead.old numbers.old rows.old }
    requires from_in_bounds { from.0 < length links.now }
    requires by_index { (m : ℕ) → scores_in rows.old m ≡ 0 }
    ensures left { left.new ≡ trim (links_in links.now) from.0 }
    ensures ahead { (m : ℕ) → get_or ahead.new m 0 ≡ uses_from (links_in links.now) from.0 m }
    ensures numbers { numbers.new ≡ replicate (length numbers.old) None }
    ensures scores { (m : ℕ) → Scored (score_in (links_in links.now) left.new ahead.new (numbers_in numbers.new)) rows.new m }
{
    uses::uses_with(links, from, left, ahead);
    numbers.fill(None);
    let state = State {
        links,
        left,
        ahead,
        numbers,
    };
    state.renew_all(rows);
}

// Turns until no node can be taken: how many nodes are placed.
fn turns(
    links: &[Link],
    from: NodeNo,
    left: &mut [u8],
    ahead: &mut [u16],
    numbers: &mut [Option<NodeNo>],
    users: &Sides,
    rows: &mut [u64],
) -> u16
    requires tables { Tables links.now left.old ahead.old numbers.old rows.old }
    requires users { Users links.now users.now }
    requires from_in_bounds { from.0 < length links.now }
    requires by_index { (m : ℕ) → scores_in rows.old m ≡ 0 }
    ensures { Stands (numbers_in numbers.new) result (top_down (links_in links.now) from.0) }
{
    begin(links, from, left, ahead, numbers, rows);
    let mut count = 0;
    while let Some(best) = press_scores::highest_if_any(rows) {
        count = take(links, best.node, left, ahead, numbers, count);
        let state = State {
            links,
            left,
            ahead,
            numbers,
        };
        state.renew_touched(users, best.node, rows);
    }
    count
}

// The order, with the tables that its turns need beside those of the users.
fn ordered(links: &[Link], from: NodeNo, users: &Sides, numbers: &mut [Option<NodeNo>]) -> u16
    requires links { Links links.now }
    requires users { Users links.now users.now }
    requires numbers_len { (length numbers.old ≡ length links.now) × (from.0 < length links.now) }
    ensures { Stands (numbers_in numbers.new) result (top_down (links_in links.now) from.0) }
{
    let mut left = [0u8; CAPACITY];
    let mut ahead = [0u16; CAPACITY];
    let mut rows = [0u64; SCORE_WORDS];
    let n = links.len();
    turns(
        links,
        from,
        &mut left[..n],
        &mut ahead[..n],
        numbers,
        users,
        &mut rows,
    )
}

// The places of what a node reaches, and how many there are.
pub fn top_down(links: &[Link], from: NodeNo, numbers: &mut [Option<NodeNo>]) -> u16
    requires links { Links links.now }
    requires numbers_len { (length numbers.old ≡ length links.now) × (from.0 < length links.now) }
    ensures numbers { Numbered (numbers_in numbers.new) (top_down (links_in links.now) from.0) }
    ensures count { result ≡ length (top_down (links_in links.now) from.0) }
{
    let mut left_heads = [None; CAPACITY];
    let mut left_nexts = [None; CAPACITY];
    let mut right_heads = [None; CAPACITY];
    let mut right_nexts = [None; CAPACITY];
    let n = links.len();
    press_users::chain(
        links,
        Side::Left,
        &mut left_heads[..n],
        &mut left_nexts[..n],
    );
    press_users::chain(
        links,
        Side::Right,
        &mut right_heads[..n],
        &mut right_nexts[..n],
    );
    let users = Sides {
        left: Chains {
            side: Side::Left,
            heads: &left_heads[..n],
            nexts: &left_nexts[..n],
        },
        right: Chains {
            side: Side::Right,
            heads: &right_heads[..n],
            nexts: &right_nexts[..n],
        },
    };
    ordered(links, from, &users, numbers)
}
