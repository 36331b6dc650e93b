// The peak of nodes in their order, with no record written: what each node's drops let go is read from the table of last uses.
#![tactic(auto)]

ghost use Rattle.std.specs.Prelude.{◌≡◌, ◌+◌, ◌-◌, ◌<◌, length, drop as after};
ghost use Rattle.press_spec.specs.Links.{link_at};
ghost use Rattle.press_spec.specs.Drops.{drops_after};
ghost use Rattle.press_nodes.specs.Tables.{links_in, Links};
ghost use Rattle.press_nodes.specs.Numbers.{numbers_in};
ghost use Rattle.press_last.specs.LastUses.{last_uses, drop_by};
ghost use Rattle.press_peak.specs.Peaks.{peak_of_links};

use press_nodes::link;
use press_nodes::link::Link;
use sheet::NodeNo;
use sheet::limits::CAPACITY;

// How many drops of n come after node k: one, or none if a later node names it.
#[tactic(auto, unfolding(press_last::specs::LastUses::drop_by))]
fn drop_count(last: &[Option<NodeNo>], k: NodeNo, n: NodeNo) -> u16
    requires { n.0 < length last.now }
    ensures { result ≡ length (drop_by (numbers_in last.now) k.0 n.0) }
{
    u16::from(!press_last::used_after(last, k, n))
}

// How many nodes are dropped after node k.
fn dropped_after(links: &[Link], last: &[Option<NodeNo>], k: NodeNo) -> u16
    requires links { Links links.now }
    requires k_in_bounds { (k.0 < length links.now) × (numbers_in last.now ≡ last_uses (links_in links.now)) }
    ensures { result ≡ length (drops_after (link_at (links_in links.now) k.0) (after (k.0 + 1) (links_in links.now))) }
{
    let Link::Join { left, right, .. } = link::link_at(links, k) else {
        return 0;
    };
    let of_left = drop_count(last, k, left);
    if left == right {
        return of_left;
    }
    of_left + drop_count(last, k, right)
}

// Fills the table of last uses, which is lent; then each node is held, and what it uses last is not.
fn peak_with(links: &[Link], last: &mut [Option<NodeNo>]) -> u16
    requires links { Links links.now }
    requires last_len { length last.old ≡ length links.now }
    ensures { result ≡ peak_of_links 0 (links_in links.now) }
{
    press_last::last_uses(links, last);
    let mut held: u16 = 0;
    let mut peak: u16 = 0;
    for k in 0..links.len() {
        let more = held + 1;
        peak = peak.max(more);
        let gone = dropped_after(links, last, NodeNo(k as u16));
        held = more.saturating_sub(gone);
    }
    peak
}

// The peak of the nodes that have these links, in this order, with their drops.
pub fn peak_of_links(links: &[Link]) -> u16
    requires { Links links.now }
    ensures { result ≡ peak_of_links 0 (links_in links.now) }
{
    let n = links.len();
    let mut last = [None; CAPACITY];
    peak_with(links, &mut last[..n])
}
