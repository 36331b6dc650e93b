// Lower the units (001): they are collected and their uses cut, and the rest is rebuilt.
ghost use Rattle.std.specs.Prelude.{◌≡◌, ◌≤◌, ◌<◌, length};
ghost use Rattle.sheet.specs.Editions.{variables, most_nodes};
ghost use Rattle.press_spec.specs.Rebuild.{built, ended};
ghost use Rattle.press_spec.specs.Units.{collected, units_built};
ghost use Rattle.press_nodes.specs.Tables.{nodes_in, Nodes};
ghost use Rattle.press_lowered.specs.Table.{low_in};

use clause::Clause;
use press_nodes::fate::Fate;
use press_nodes::link::Link;
use press_reach::literal::Literal;
use press_trim::uses;
use press_units::{collect, cuts};
use sheet::NodeNo;
use sheet::edition::Edition;
use sheet::limits::MOST_NODES;

// "Uses of collected nodes are cut; the rebuild rule of 01 follows, over all nodes."
pub(crate) fn cut_units(
    edition: Edition,
    links: &mut [Link],
    clauses: &mut [Clause],
    from: NodeNo,
    low: &mut [Option<Literal>],
    stand_ins: &mut [u16],
)
    requires nodes { Nodes links.old clauses.old }
    requires links_len_bound { (length links.old ≤ most_nodes) × (from.0 < length links.old) × (length low.old ≡ length links.old) × (length stand_ins.old ≡ length links.old) }
    ensures low { low_in low.new ≡ (collected (variables edition) (ended (nodes_in links.old clauses.old) from.0)).low }
    ensures built { built (nodes_in links.new clauses.new) stand_ins.new ≡ units_built (variables edition) (ended (nodes_in links.old clauses.old) from.0) }
{
    let n = links.len();
    let mut kept = [0u8; MOST_NODES];
    let kept = &mut kept[..n];
    let mut counts = [0u16; MOST_NODES];
    let counts = &mut counts[..n];
    let mut fates = [Fate::Lost; MOST_NODES];
    let fates = &mut fates[..n];
    uses::uses_with(links, from, kept, counts);
    collect::collect_units(edition.variables(), clauses, counts, from, low);
    cuts::put_marked(kept, fates);
    cuts::cut_uses(links, low, fates);
    press_rebuild::rebuild(links, clauses, fates, stand_ins);
}
