// "Uses of a node are the places naming it in the trimmed sheet, so one step naming it twice counts two."
ghost use Rattle.std.specs.Prelude.{◌≡◌, [], ◌∷◌, ℕ, ◌+◌, ◌*◌, ◌≤◌, ◌<◌, length, get_or};
ghost use Rattle.sheet.specs.Editions.{capacity};
ghost use Rattle.press_spec.specs.Links.{link_at};
ghost use Rattle.press_nodes.specs.Tables.{links_in, Links};
ghost use Rattle.press_spec.specs.Trim.{trim, trimmed, naming, uses, uses_from};

use crate::trim;
use press_nodes::link;
use press_nodes::link::Link;
use sheet::NodeNo;
use sheet::limits::CAPACITY;

// One more place names node l, and one more node r.
#[tactic(auto, unfolding(press_spec::specs::Trim::naming))]
fn add_uses(counts: &mut [u16], l: NodeNo, r: NodeNo)
    requires l_in_bounds { (l.0 < length counts.old) × (r.0 < length counts.old) }
    requires by_index { (m : ℕ) → get_or counts.old m 0 ≤ 2 * capacity }
    ensures { (m : ℕ) → get_or counts.new m 0 ≡ get_or counts.old m 0 + (naming m l.0 + naming m r.0) }
{
    let i = l.index();
    let j = r.index();
    counts[i] += 1;
    counts[j] += 1;
}

// The turn at node n: the places in it, if it is kept.
#[tactic(auto, unfolding(press_spec::specs::Trim::uses, press_spec::specs::Trim::trimmed, press_spec::specs::Trim::uses_in, press_nodes::specs::Tables::link_in))]
fn use_turn(links: &[Link], kept: &[u8], n: NodeNo, counts: &mut [u16])
    requires links { Links links.now }
    requires kept_len { (length kept.now ≡ length links.now) × (length counts.old ≡ length links.now) × (n.0 < length links.now) }
    requires by_index { (m : ℕ) → get_or counts.old m 0 ≤ 2 * capacity }
    ensures { (m : ℕ) → get_or counts.new m 0 ≡ get_or counts.old m 0 + uses (trimmed (link_at (links_in links.now) n.0 ∷ []) (get_or kept.now n.0 0 ∷ [])) m }
{
    let i = n.index();
    if kept[i] == 0 {
        return;
    }
    let Link::Join { left, right, .. } = link::link_at(links, n) else {
        return;
    };
    add_uses(counts, left, right);
}

fn count_uses(links: &[Link], kept: &[u8], counts: &mut [u16])
    requires links { Links links.now }
    requires kept_len { (length kept.now ≡ length links.now) × (length counts.old ≡ length links.now) }
    ensures { (m : ℕ) → get_or counts.new m 0 ≡ uses (trimmed (links_in links.now) kept.now) m }
{
    counts.fill(0);
    for i in (0..links.len() as u16).rev() {
        use_turn(links, kept, NodeNo(i), counts);
    }
}

// The uses of each node in what `from` reaches, and in `kept` 1 for each node that it reaches, 0 for each other.
#[tactic(auto, unfolding(press_spec::specs::Trim::uses_from))]
pub fn uses_with(links: &[Link], from: NodeNo, kept: &mut [u8], counts: &mut [u16])
    requires links { Links links.now }
    requires kept_len { (length kept.old ≡ length links.now) × (length counts.old ≡ length links.now) × (from.0 < length links.now) }
    ensures uses { (m : ℕ) → get_or counts.new m 0 ≡ uses_from (links_in links.now) from.0 m }
    ensures marks { kept.new ≡ trim (links_in links.now) from.0 }
{
    trim::trim(links, from, kept);
    count_uses(links, kept, counts);
}

// The uses of each node in what `from` reaches.
pub fn uses_from(links: &[Link], from: NodeNo, counts: &mut [u16])
    requires links { Links links.now }
    requires counts_len { (length counts.old ≡ length links.now) × (from.0 < length links.now) }
    ensures { (m : ℕ) → get_or counts.new m 0 ≡ uses_from (links_in links.now) from.0 m }
{
    let n = links.len();
    let mut kept = [0u8; CAPACITY];
    uses_with(links, from, &mut kept[..n], counts);
}
