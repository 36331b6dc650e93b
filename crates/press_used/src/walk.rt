// "All on one and the same literal": what the uses of each node are on, in one walk from the end.
ghost use Rattle.std.specs.Prelude.{◌≡◌, cond, ℕ, ◌<◌, eqb, length, get_or};
ghost use Rattle.press_spec.specs.Links.{link_at};
ghost use Rattle.press_spec.specs.Trim.{trimmed};
ghost use Rattle.press_spec.specs.Univalents.{used_in, used_on};
ghost use Rattle.press_nodes.specs.Tables.{links_in, Links};
ghost use Rattle.press_used.specs.Table.{use_at};

use crate::table;
use crate::table::Used;
use press_nodes::link;
use press_nodes::link::Link;
use press_reach::literal::Literal;
use sheet::NodeNo;

// The turn at node n: the uses in it, if it is kept.
#[tactic(auto, unfolding(press_spec::specs::Univalents::used_in, press_nodes::specs::Tables::link_in, press_reach::specs::Literals::literal_in))]
fn use_turn(links: &[Link], kept: &[u8], n: NodeNo, used: &mut [Used])
    requires links { Links links.now }
    requires kept_len { (length kept.now ≡ length links.now) × (length used.old ≡ length links.now) × (n.0 < length links.now) }
    ensures { (m : ℕ) → use_at used.new m ≡ cond (eqb (get_or kept.now n.0 0) 0) (use_at used.old m) (used_in m (link_at (links_in links.now) n.0) (use_at used.old m)) }
{
    let i = n.index();
    if kept[i] == 0 {
        return;
    }
    let Link::Join { pivot, left, right } = link::link_at(links, n) else {
        return;
    };
    table::use_too(used, right, Literal::Minus(pivot));
    table::use_too(used, left, Literal::Plus(pivot));
}

// What the uses of each node are on, where these nodes are kept.
pub fn used_on(links: &[Link], kept: &[u8], used: &mut [Used])
    requires links { Links links.now }
    requires kept_len { (length kept.now ≡ length links.now) × (length used.old ≡ length links.now) }
    ensures { (m : ℕ) → use_at used.new m ≡ used_on (trimmed (links_in links.now) kept.now) m }
{
    used.fill(Used::Unused);
    for i in (0..links.len() as u16).rev() {
        use_turn(links, kept, NodeNo(i), used);
    }
}
