// "Uses of collected nodes are cut": of a step, the edge that leads to a lowered node.
ghost use Rattle.std.specs.Prelude.{◌≡◌, ◌<◌, length};
ghost use Rattle.press_spec.specs.Links.{link_at};
ghost use Rattle.press_spec.specs.Lower.{low_at, cut_by};
ghost use Rattle.press_nodes.specs.Tables.{links_in, Sound};
ghost use Rattle.press_nodes.specs.Fates.{cut_in};
ghost use Rattle.press_lowered.specs.Table.{low_in};

use crate::table;
use press_nodes::fate::Side;
use press_nodes::link;
use press_nodes::link::Link;
use press_reach::literal::Literal;
use sheet::NodeNo;

// The edge of node n that is cut: no step has both parents lowered (`never_both`).
#[tactic(auto, unfolding(press_spec::specs::Lower::cut_by, press_nodes::specs::Fates::cut_in, press_nodes::specs::Tables::link_in))]
pub fn cut_of(links: &[Link], low: &[Option<Literal>], n: NodeNo) -> Option<Side>
    requires { (n.0 < length links.now) × Sound n.0 (link_at (links_in links.now) n.0) × (length low.now ≡ length links.now) }
    ensures { cut_in result ≡ cut_by (low_at (low_in low.now)) (link_at (links_in links.now) n.0) }
{
    let Link::Join { left, right, .. } = link::link_at(links, n) else {
        return None;
    };
    if table::is_lowered(low, left) {
        return Some(Side::Left);
    }
    if table::is_lowered(low, right) {
        return Some(Side::Right);
    }
    None
}
