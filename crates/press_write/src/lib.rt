// 6: the nodes of the pressed sheet are written with their drops, the rule lines that they use are marked, and both are reported.
#![tactic(auto)]

ghost use Rattle.std.specs.Prelude.{◌≡◌};
ghost use Rattle.base.specs.Bytes.{put};
ghost use Rattle.sheet.specs.Fields.{sheet_bytes};
ghost use Rattle.press_spec.specs.Drops.{with_drops};
ghost use Rattle.press_spec.specs.Press.{core, report};
ghost use Rattle.press_nodes.specs.Tables.{nodes_in, Nodes};
ghost use Rattle.press_write.specs.Emittable.{Emittable};
ghost use Rattle.press_write.specs.Reported.{reported};

use clause::Clause;
use press_nodes::clause_table;
use press_nodes::link::Link;
use press_spec::Order;
use sheet::NodeNo;
use sheet::edition::Edition;

// "An accepted press returns .." these, beside output and marks.
#[derive(Clone, Copy)]
pub struct Pressed {
    pub conclusion: Clause,
    pub records: u16,
    pub nodes: u16,
    pub steps: u16,
    pub peak: u16,
    pub marked: u16,
    pub order: Order,
}

// The order is the one in which the nodes stand: it is reported.
pub fn write(
    edition: Edition,
    order: Order,
    links: &[Link],
    clauses: &[Clause],
    lines: usize,
    out: &mut [u8],
    marks: &mut [u8],
) -> Pressed
    requires nodes { Nodes links.now clauses.now }
    requires emittable { Emittable edition lines (nodes_in links.now clauses.now) out.old marks.old }
    ensures report { reported result ≡ report lines order (nodes_in links.now clauses.now) }
    ensures lent { (out.new ≡ put out.old 0 (sheet_bytes edition (with_drops (nodes_in links.now clauses.now)))) × (marks.new ≡ put marks.old 0 (core lines (nodes_in links.now clauses.now))) }
{
    let sink = NodeNo((links.len() - 1) as u16);
    let emitted = press_drops::emit_records(edition, links, clauses, out);
    let marked = press_marks::mark_lines(links, lines, marks);
    Pressed {
        conclusion: clause_table::clause_at(clauses, sink),
        records: emitted.records,
        nodes: emitted.tally.next,
        steps: emitted.tally.steps,
        peak: emitted.tally.peak,
        marked,
        order,
    }
}
