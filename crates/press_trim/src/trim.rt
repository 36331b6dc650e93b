// 1. Trim: "The sink is the last record. Keep what the sink reaches through parents."
ghost use Rattle.std.specs.Prelude.{◌≡◌, ◌<◌, length};
ghost use Rattle.press_nodes.specs.Tables.{links_in, Links};
ghost use Rattle.press_spec.specs.Trim.{trim_turn, trim};

use press_nodes::link;
use press_nodes::link::Link;
use sheet::NodeNo;

// The turn at node n: a node that is kept keeps its parents.
#[tactic(auto, unfolding(press_spec::specs::Trim::trim_turn, press_spec::specs::Trim::keep_parents, press_nodes::specs::Tables::link_in))]
fn trim_turn(links: &[Link], n: NodeNo, kept: &mut [u8])
    requires links { Links links.now }
    requires kept_len { (length kept.old ≡ length links.now) × (n.0 < length links.now) }
    ensures { kept.new ≡ trim_turn (links_in links.now) n.0 kept.old }
{
    let i = n.index();
    if kept[i] == 0 {
        return;
    }
    let Link::Join { left, right, .. } = link::link_at(links, n) else {
        return;
    };
    let l = left.index();
    let r = right.index();
    kept[l] = 1;
    kept[r] = 1;
}

// 1 for each node that `from` reaches, 0 for each other: the list of the definition `trim`, so no `bool`.
pub fn trim(links: &[Link], from: NodeNo, kept: &mut [u8])
    requires links { Links links.now }
    requires kept_len { (length kept.old ≡ length links.now) × (from.0 < length links.now) }
    ensures { kept.new ≡ trim (links_in links.now) from.0 }
{
    kept.fill(0);
    let start = from.index();
    kept[start] = 1;
    for i in (0..from.0 + 1).rev() {
        trim_turn(links, NodeNo(i), kept);
    }
}
