// "Uses of collected nodes are cut."
ghost use Rattle.std.specs.Prelude.{◌≡◌, ◌<◌, length};
ghost use Rattle.press_spec.specs.Lower.{low_at, fates_by};
ghost use Rattle.press_nodes.specs.Tables.{links_in, Links};
ghost use Rattle.press_nodes.specs.Fates.{fate_in, fates_in};
ghost use Rattle.press_lowered.specs.Table.{low_in};
ghost use Rattle.press_units.specs.Marks.{marks_in, fate_marked, fates_marked};

use press_lowered::edge;
use press_nodes::fate::Fate;
use press_nodes::link::Link;
use press_reach::literal::Literal;
use sheet::NodeNo;

// The fate of a node that has this mark of a trim.
#[tactic(auto, unfolding(press_nodes::specs::Fates::fate_in, press_nodes::specs::Fates::cut_in, crate::specs::Marks::fate_marked))]
fn fate_marked(mark: u8) -> Fate
    ensures { fate_in result ≡ fate_marked mark }
{
    if mark == 0 {
        return Fate::Lost;
    }
    Fate::Kept(None)
}

// The fates before the cuts: the nodes that a trim marked are kept with no edge cut, the others are lost.
pub fn put_marked(kept: &[u8], fates: &mut [Fate])
    requires { length kept.now ≡ length fates.old }
    ensures { fates_in fates.new ≡ fates_marked kept.now }
{
    for i in 0..kept.len() {
        fates[i] = fate_marked(kept[i]);
    }
}

// What becomes of node n.
fn fate_of(links: &[Link], low: &[Option<Literal>], fates: &[Fate], n: NodeNo) -> Fate
    requires links { Links links.now }
    requires low_len { (length low.now ≡ length links.now) × (length fates.now ≡ length links.now) × (n.0 < length links.now) }
    ensures { fate_in result ≡ fates_by (marks_in fates.now) (low_at (low_in low.now)) (links_in links.now) n.0 }
{
    match fates[n.index()] {
        Fate::Lost => Fate::Lost,
        Fate::Kept(_) => Fate::Kept(edge::cut_of(links, low, n)),
    }
}

// What becomes of each node where these are lowered: in `fates` stands which nodes are kept, and then with which cut.
pub fn cut_uses(links: &[Link], low: &[Option<Literal>], fates: &mut [Fate])
    requires links { Links links.now }
    requires low_len { (length low.now ≡ length links.now) × (length fates.old ≡ length links.now) }
    ensures { fates_in fates.new ≡ fates_by (marks_in fates.old) (low_at (low_in low.now)) (links_in links.now) }
{
    for i in 0..links.len() {
        fates[i] = fate_of(links, low, fates, NodeNo(i as u16));
    }
}
