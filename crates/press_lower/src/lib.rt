// Lowering (001), as an option after step 4: nodes with a literal each lose their uses, the rest is rebuilt, and they come back at the conclusion.
#![tactic(auto)]

ghost use Rattle.std.specs.Prelude.{◌≡◌, ◌≤◌, ◌<◌, length, take};
ghost use Rattle.sheet.specs.Editions.{variables, most_nodes, capacity};
ghost use Rattle.press_spec.specs.Rebuild.{built, ended};
ghost use Rattle.press_spec.specs.Lowerings.{lows_of, built_of, lower_of};
ghost use Rattle.press_nodes.specs.Tables.{nodes_in, Nodes};
ghost use Rattle.press_lowered.specs.Table.{low_in};
ghost use Rattle.press_return.specs.Returns.{ended_in};

use clause::Clause;
use press_nodes::link::Link;
use press_reach::literal::Literal;
use press_return::Ended;
use press_spec::Lowerable;
use sheet::NodeNo;
use sheet::edition::Edition;
use sheet::limits::MOST_NODES;

mod units;
mod univalents;

// By the pass chosen: which nodes of what `from` reaches are lowered, and the rest rebuilt. A match and no closure: `lows_of` and `built_of` go by the
// same two cases.
#[tactic(auto, unfolding(press_spec::specs::Lowerings::lows_of, press_spec::specs::Lowerings::built_of))]
fn cut(
    which: Lowerable,
    edition: Edition,
    links: &mut [Link],
    clauses: &mut [Clause],
    from: NodeNo,
    low: &mut [Option<Literal>],
    stand_ins: &mut [u16],
)
    requires nodes { Nodes links.old clauses.old }
    requires links_len_bound { (length links.old ≤ most_nodes) × (from.0 < length links.old) × (length low.old ≡ length links.old) × (length stand_ins.old ≡ length links.old) }
    ensures low { low_in low.new ≡ lows_of which (variables edition) (ended (nodes_in links.old clauses.old) from.0) }
    ensures built { built (nodes_in links.new clauses.new) stand_ins.new ≡ built_of which (variables edition) (ended (nodes_in links.old clauses.old) from.0) }
{
    match which {
        Lowerable::Units => units::cut_units(edition, links, clauses, from, low, stand_ins),
        Lowerable::Univalents => univalents::cut_univalents(links, clauses, from, low, stand_ins),
    }
}

// Lowers what is chosen. The tables are used up, and what comes of them stands in the wider ones, which have room for the new steps.
pub fn lower(
    which: Lowerable,
    edition: Edition,
    links: &mut [Link],
    clauses: &mut [Clause],
    from: NodeNo,
    wider_links: &mut [Link],
    wider_clauses: &mut [Clause],
) -> Ended
    requires nodes { Nodes links.old clauses.old × (length links.old ≤ most_nodes) × (from.0 < length links.old) }
    requires wider_clauses_len { (length wider_clauses.old ≡ length wider_links.old) × (length wider_links.old ≤ capacity) × (length links.old ≤ length wider_links.old) }
    requires from_in_bounds { length (lower_of which (variables edition) (ended (nodes_in links.old clauses.old) from.0)).nodes ≤ length wider_links.old }
    ensures lowered { ended_in result (nodes_in wider_links.new wider_clauses.new) ≡ lower_of which (variables edition) (ended (nodes_in links.old clauses.old) from.0) }
    ensures sound { Nodes (take result.nodes wider_links.new) (take result.nodes wider_clauses.new) × (result.last.0 < result.nodes) × (result.nodes ≤ length wider_links.old) }
{
    let n = links.len();
    let mut low: [Option<Literal>; MOST_NODES] = [None; MOST_NODES];
    let low = &mut low[..n];
    let mut stand_ins = [0u16; MOST_NODES];
    let stand_ins = &mut stand_ins[..n];
    cut(which, edition, links, clauses, from, low, stand_ins);
    wider_links[..n].copy_from_slice(links);
    wider_clauses[..n].copy_from_slice(clauses);
    press_return::come_back_all(wider_links, wider_clauses, n as u16, low, stand_ins, from)
}
