// Where each node is used last, found in one walk from the end. "Right after the record that uses a node last comes its drop": the drops and
// the peak are read from this table.
#![tactic(auto)]

ghost use Rattle.std.specs.Prelude.{◌≡◌, ◌<◌, length};
ghost use Rattle.press_nodes.specs.Tables.{links_in, Links};
ghost use Rattle.press_nodes.specs.Numbers.{numbers_in};
ghost use Rattle.press_last.specs.LastUses.{note_use, last_turn, last_uses, used_after};

use press_nodes::link;
use press_nodes::link::Link;
use sheet::NodeNo;

// Node i names n: that is its last use, unless one is noted already, since the walk comes from the end.
#[tactic(auto, using(crate::proofs::Noting::note_new, crate::proofs::Noting::note_stays))]
fn note_use(i: NodeNo, n: NodeNo, last: &mut [Option<NodeNo>])
    requires { n.0 < length last.old }
    ensures { numbers_in last.new ≡ note_use i.0 n.0 (numbers_in last.old) }
{
    let at = n.index();
    if last[at].is_none() {
        last[at] = Some(i);
    }
}

// The turn at node i.
fn last_turn(links: &[Link], i: NodeNo, last: &mut [Option<NodeNo>])
    requires links { Links links.now }
    requires last_len { (length last.old ≡ length links.now) × (i.0 < length links.now) }
    ensures { numbers_in last.new ≡ last_turn (links_in links.now) i.0 (numbers_in last.old) }
{
    let Link::Join { left, right, .. } = link::link_at(links, i) else {
        return;
    };
    note_use(i, left, last);
    note_use(i, right, last);
}

// For each node the last node that names it, if one does.
pub fn last_uses(links: &[Link], last: &mut [Option<NodeNo>])
    requires links { Links links.now }
    requires last_len { length last.old ≡ length links.now }
    ensures { numbers_in last.new ≡ last_uses (links_in links.now) }
{
    last.fill(None);
    for i in (0..links.len()).rev() {
        last_turn(links, NodeNo(i as u16), last);
    }
}

// Whether a node after k names n.
pub fn used_after(last: &[Option<NodeNo>], k: NodeNo, n: NodeNo) -> bool
    requires { n.0 < length last.now }
    ensures { result ≡ used_after (numbers_in last.now) k.0 n.0 }
{
    last[n.index()].is_some_and(|m| k < m)
}
