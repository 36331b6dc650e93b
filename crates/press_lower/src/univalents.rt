// Lower the univalents (001): they are found and their uses cut while the rest is rebuilt.
ghost use Rattle.std.specs.Prelude.{◌≡◌, ◌≤◌, ◌<◌, length};
ghost use Rattle.sheet.specs.Editions.{most_nodes};
ghost use Rattle.press_spec.specs.Rebuild.{built, ended};
ghost use Rattle.press_spec.specs.Univalents.{risen};
ghost use Rattle.press_nodes.specs.Tables.{nodes_in, Nodes};
ghost use Rattle.press_lowered.specs.Table.{low_in};

use clause::Clause;
use press_nodes::link::Link;
use press_reach::literal::Literal;
use press_trim::trim;
use press_univalents::rise;
use press_used::table::Used;
use press_used::walk;
use sheet::NodeNo;
use sheet::limits::MOST_NODES;

pub(crate) fn cut_univalents(
    links: &mut [Link],
    clauses: &mut [Clause],
    from: NodeNo,
    low: &mut [Option<Literal>],
    stand_ins: &mut [u16],
)
    requires nodes { Nodes links.old clauses.old }
    requires links_len_bound { (length links.old ≤ most_nodes) × (from.0 < length links.old) × (length low.old ≡ length links.old) × (length stand_ins.old ≡ length links.old) }
    ensures low { low_in low.new ≡ (risen (ended (nodes_in links.old clauses.old) from.0)).ones.low }
    ensures built { built (nodes_in links.new clauses.new) stand_ins.new ≡ (risen (ended (nodes_in links.old clauses.old) from.0)).so }
{
    let n = links.len();
    let mut kept = [0u8; MOST_NODES];
    let kept = &mut kept[..n];
    let mut used = [Used::Unused; MOST_NODES];
    let used = &mut used[..n];
    trim::trim(links, from, kept);
    walk::used_on(links, kept, used);
    rise::rise(links, clauses, kept, used, low, stand_ins);
}
