// Which steps name a node, without a search: for each side the steps that have the node for their parent there form a chain, from the newest to the oldest.
#![tactic(auto)]

ghost use Rattle.std.specs.Prelude.{◌≡◌, ◌+◌, ◌<◌, length, suc, IfSome, IfNone};
ghost use Rattle.press_spec.specs.Links.{link_at};
ghost use Rattle.press_nodes.specs.Tables.{links_in, Links};
ghost use Rattle.press_nodes.specs.Numbers.{numbers_in};
ghost use Rattle.press_users.specs.Chains.{parent_on, Chain};

use press_nodes::fate::Side;
use press_nodes::link;
use press_nodes::link::Link;
use sheet::NodeNo;

// The parent that node n has on a side: a given has none.
fn parent_on(links: &[Link], side: Side, n: NodeNo) -> Option<NodeNo>
    requires links { Links links.now }
    requires n_in_bounds { n.0 < length links.now }
    ensures some { IfSome result (λ q. (parent_on side (link_at (links_in links.now) n.0) ≡ suc q.0) × (q.0 < n.0)) }
    ensures none { IfNone result (parent_on side (link_at (links_in links.now) n.0) ≡ 0) }
{
    let Link::Join { left, right, .. } = link::link_at(links, n) else {
        return None;
    };
    match side {
        Side::Left => Some(left),
        Side::Right => Some(right),
    }
}

// Node n goes to the front of its parent's chain.
fn chain_turn(
    links: &[Link],
    side: Side,
    n: NodeNo,
    heads: &mut [Option<NodeNo>],
    nexts: &mut [Option<NodeNo>],
)
    requires links { Links links.now }
    requires heads_len { (length heads.old ≡ length links.now) × (length nexts.old ≡ length links.now) × (n.0 < length links.now) }
    requires chain { Chain side (links_in links.now) n.0 (numbers_in heads.old) (numbers_in nexts.old) }
    ensures { Chain side (links_in links.now) (n.0 + 1) (numbers_in heads.new) (numbers_in nexts.new) }
{
    let Some(parent) = parent_on(links, side, n) else {
        return;
    };
    let q = parent.index();
    nexts[n.index()] = heads[q];
    heads[q] = Some(n);
}

// For each node the newest step that names it on this side, and for each step the next older one that names the same node.
pub fn chain(links: &[Link], side: Side, heads: &mut [Option<NodeNo>], nexts: &mut [Option<NodeNo>])
    requires links { Links links.now }
    requires heads_len { (length heads.old ≡ length links.now) × (length nexts.old ≡ length links.now) }
    ensures { Chain side (links_in links.now) (length links.now) (numbers_in heads.new) (numbers_in nexts.new) }
{
    heads.fill(None);
    for n in 0..links.len() {
        chain_turn(links, side, NodeNo(n as u16), heads, nexts);
    }
}
