// "The core is the set of rule lines of the emitted given records." "Marks hold 1 or 0 for each rule line; bytes beyond are untouched."
#![tactic(auto)]

ghost use Rattle.std.specs.Prelude.{◌≡◌, ℕ, ◌<◌, ◌≤◌, length, get_or, replicate};
ghost use Rattle.base.specs.Bytes.{put};
ghost use Rattle.sheet.specs.Editions.{most_lines};
ghost use Rattle.press_spec.specs.Links.{link_at};
ghost use Rattle.press_spec.specs.Drops.{mark_link, mark_lines, total};
ghost use Rattle.press_nodes.specs.Tables.{links_in, Links};
ghost use Rattle.press_marks.specs.Marking.{LinesBelow};

use press_nodes::link;
use press_nodes::link::Link;
use sheet::NodeNo;

// The line of node k is marked, if it is a given.
fn mark_turn(links: &[Link], k: NodeNo, core: &mut [u8])
    requires links { Links links.now }
    requires k_in_bounds { (k.0 < length links.now) × LinesBelow (length core.old) (links_in links.now) }
    ensures { core.new ≡ mark_link (link_at (links_in links.now) k.0) core.old }
{
    if let Link::Leaf(line) = link::link_at(links, k) {
        core[line.index()] = 1;
    }
}

// Every line of a given node, and no other.
fn mark_core(links: &[Link], core: &mut [u8])
    requires links { Links links.now }
    requires lines_below { LinesBelow (length core.old) (links_in links.now) }
    ensures { core.new ≡ mark_lines (links_in links.now) (replicate (length core.old) 0) }
{
    core.fill(0);
    for k in 0..links.len() {
        mark_turn(links, NodeNo(k as u16), core);
    }
}

// How many lines are marked.
fn count_marks(core: &[u8]) -> u16
    requires { (length core.now ≤ most_lines) × ((i : ℕ) → get_or core.now i 0 ≤ 1) }
    ensures { result ≡ total core.now }
{
    core.iter().map(|mark| u16::from(*mark)).sum()
}

// The marks of the first `lines` bytes, and how many there are.
pub fn mark_lines(links: &[Link], lines: usize, marks: &mut [u8]) -> u16
    requires links { Links links.now }
    requires lines_le_most_lines { (lines ≤ most_lines) × (lines ≤ length marks.old) × LinesBelow lines (links_in links.now) }
    ensures marks { marks.new ≡ put marks.old 0 (mark_lines (links_in links.now) (replicate lines 0)) }
    ensures marked { result ≡ total (mark_lines (links_in links.now) (replicate lines 0)) }
{
    mark_core(links, &mut marks[..lines]);
    count_marks(&marks[..lines])
}
