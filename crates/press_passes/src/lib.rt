// "How a sheet is pressed", of nodes that are judged proper, by the passes that the plan chooses: 1 the uses, 2 recycle, 3 rebuild, lowering if it is chosen, 4
// and 5 the better order from the conclusion, in which the nodes are laid out, 6 write. The tables belong to these functions, and each pass is lent the part in use.
#![tactic(auto)]

ghost use Rattle.std.specs.Prelude.{◌≡◌, ◌≤◌, ◌<◌, length};
ghost use Rattle.base.specs.Bytes.{put};
ghost use Rattle.sheet.specs.Editions.{variables, most_nodes, capacity};
ghost use Rattle.sheet.specs.Fields.{sheet_bytes};
ghost use Rattle.press_spec.specs.Drops.{with_drops};
ghost use Rattle.press_spec.specs.Rebuild.{ended};
ghost use Rattle.press_spec.specs.Lowerings.{lower_of};
ghost use Rattle.press_spec.specs.Press.{shortened, arranged, conclusion, chosen_fit, concluded, pressed, pressed_order, core, report};
ghost use Rattle.press_nodes.specs.Tables.{nodes_in, Nodes};
ghost use Rattle.press_write.specs.Emittable.{Emittable};
ghost use Rattle.press_write.specs.Reported.{reported};
ghost use Rattle.press_passes.specs.Finishing.{Finishes};

use clause::Clause;
use press_nodes::clause_table;
use press_nodes::fate::Fate;
use press_nodes::link::{BLANK, Link};
use press_spec::{Lowerable, Plan};
use press_trim::uses;
use press_write::Pressed;
use sheet::NodeNo;
use sheet::edition::Edition;
use sheet::limits::{CAPACITY, MOST_NODES};

// 1 to 3: the uses are counted, and the nodes recycled and rebuilt in their tables. Answers the sink's stand-in, the conclusion. `sets` is for recycling's sets
// alone: what it held before never matters.
fn shorten(plan: Plan, links: &mut [Link], clauses: &mut [Clause], sets: &mut [Clause]) -> NodeNo
    requires { Nodes links.old clauses.old × (0 < length links.old) × (length links.old ≤ most_nodes) × (length sets.old ≡ length links.old) }
    ensures sound { Nodes links.new clauses.new × (result.0 < length links.new) }
    ensures short { let s = nodes_in links.old clauses.old in ended (nodes_in links.new clauses.new) result.0 ≡ shortened (chosen_fit plan s) (conclusion s) s }
{
    let n = links.len();
    let sink = NodeNo((n - 1) as u16);
    let mut counts = [0u16; MOST_NODES];
    let counts = &mut counts[..n];
    uses::uses_from(links, sink, counts);
    let own = clause_table::clause_at(clauses, sink);
    let mut fates = [Fate::Lost; MOST_NODES];
    let fates = &mut fates[..n];
    let how = plan.recycling;
    press_recycle::recycle(how, links, own, counts, fates, sets);
    let mut stand_ins = [0u16; MOST_NODES];
    let stand_ins = &mut stand_ins[..n];
    press_rebuild::rebuild(links, clauses, fates, stand_ins);
    press_rebuild::stand_in(stand_ins, sink)
}

// 4 to 6, from the conclusion. The pressed clauses are laid out in `sets`: what it held before never matters.
fn finish(
    edition: Edition,
    links: &[Link],
    clauses: &[Clause],
    from: NodeNo,
    sets: &mut [Clause],
    lines: usize,
    out: &mut [u8],
    marks: &mut [u8],
) -> Pressed
    requires nodes { Nodes links.now clauses.now × (from.0 < length links.now) × (length sets.old ≡ most_nodes) }
    requires from_len_bound { length (arranged (ended (nodes_in links.now clauses.now) from.0)) ≤ most_nodes }
    requires emittable { Emittable edition lines (arranged (ended (nodes_in links.now clauses.now) from.0)) out.old marks.old }
    ensures { Finishes edition lines (ended (nodes_in links.now clauses.now) from.0) result out.old marks.old out.new marks.new }
{
    let n = links.len();
    let mut numbers = [None; CAPACITY];
    let numbers = &mut numbers[..n];
    let chosen = press_better::better_order(links, from, numbers);
    let kept = chosen.nodes as usize;
    let mut laid = [BLANK; MOST_NODES];
    let laid = &mut laid[..kept];
    let sets = &mut sets[..kept];
    press_lay::lay(links, clauses, numbers, laid, sets);
    press_write::write(edition, chosen.order, laid, sets, lines, out, marks)
}

// What is chosen is lowered, in tables with room for the new steps; then 4 to 6.
fn finish_lowered(
    which: Lowerable,
    edition: Edition,
    links: &mut [Link],
    clauses: &mut [Clause],
    from: NodeNo,
    sets: &mut [Clause],
    lines: usize,
    out: &mut [u8],
    marks: &mut [u8],
) -> Pressed
    requires nodes { Nodes links.old clauses.old × (length links.old ≤ most_nodes) × (from.0 < length links.old) × (length sets.old ≡ most_nodes) }
    requires from_len_bound { (length (lower_of which (variables edition) (ended (nodes_in links.old clauses.old) from.0)).nodes ≤ capacity) × (length (arranged (lower_of which (variables edition) (ended (nodes_in links.old clauses.old) from.0))) ≤ most_nodes) }
    requires emittable { Emittable edition lines (arranged (lower_of which (variables edition) (ended (nodes_in links.old clauses.old) from.0))) out.old marks.old }
    ensures { Finishes edition lines (lower_of which (variables edition) (ended (nodes_in links.old clauses.old) from.0)) result out.old marks.old out.new marks.new }
{
    let mut wider_links = [BLANK; CAPACITY];
    let mut wider_clauses = [clause::nothing(); CAPACITY];
    let lowered = press_lower::lower(
        which,
        edition,
        links,
        clauses,
        from,
        &mut wider_links,
        &mut wider_clauses,
    );
    let n = lowered.nodes as usize;
    finish(
        edition,
        &wider_links[..n],
        &wider_clauses[..n],
        lowered.last,
        sets,
        lines,
        out,
        marks,
    )
}

// 1 to 6, by a match on what the plan lowers, as `pressed` goes. Lines, output and marks come from C one by one, and are handed on so.
// Recycling's sets and then the pressed clauses stand in one table, `sets`: the first are done with when the second are laid out.
pub fn run_passes(
    plan: Plan,
    links: &mut [Link],
    clauses: &mut [Clause],
    lines: usize,
    out: &mut [u8],
    marks: &mut [u8],
) -> Pressed
    requires nodes { Nodes links.old clauses.old × (0 < length links.old) × (length links.old ≤ most_nodes) }
    requires fact { let s = nodes_in links.old clauses.old in (length (concluded plan (conclusion s) s).nodes ≤ capacity) × (length (pressed plan s) ≤ most_nodes) }
    requires emittable { Emittable plan.edition lines (pressed plan (nodes_in links.old clauses.old)) out.old marks.old }
    ensures report { let s = nodes_in links.old clauses.old in reported result ≡ report lines (pressed_order plan s) (pressed plan s) }
    ensures lent { (out.new ≡ put out.old 0 (sheet_bytes plan.edition (with_drops (pressed plan (nodes_in links.old clauses.old))))) × (marks.new ≡ put marks.old 0 (core lines (pressed plan (nodes_in links.old clauses.old)))) }
{
    let n = links.len();
    let mut sets = [clause::nothing(); MOST_NODES];
    let from = shorten(plan, links, clauses, &mut sets[..n]);
    let edition = plan.edition;
    let lowering = plan.lowering;
    match lowering {
        None => finish(edition, links, clauses, from, &mut sets, lines, out, marks),
        Some(which) => finish_lowered(
            which, edition, links, clauses, from, &mut sets, lines, out, marks,
        ),
    }
}
