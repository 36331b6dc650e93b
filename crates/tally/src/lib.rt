// "One small running tally": next node, held, peak, steps. The replay keeps one and changes it record by record, and the press counts
// what it writes with the same one.
#![tactic(auto)]

ghost use Rattle.std.specs.Prelude.{◌≡◌, ◌≤◌};
ghost use Rattle.sheet.specs.Denote.{record_of};
ghost use Rattle.tally.specs.Tally.{nothing, with_node, without_node, counted};
ghost use Rattle.tally.specs.Said.{tally_of, Countable};

use sheet::Record;

// The next node's number, the nodes held, the most held so far, the resolution records taken.
#[derive(Clone, Copy, PartialEq, Eq)]
pub struct Tally {
    pub next: u16,
    pub held: u16,
    pub peak: u16,
    pub steps: u16,
}

pub fn nothing() -> Tally
    ensures { tally_of result ≡ nothing }
{
    Tally {
        next: 0,
        held: 0,
        peak: 0,
        steps: 0,
    }
}

// The tally after a node, which is a step or (0) is none.
fn with_node(t: Tally, steps: u16) -> Tally
    requires countable { Countable t }
    requires one_or_none { steps ≤ 1 }
    ensures { tally_of result ≡ with_node steps (tally_of t) }
{
    let held = t.held + 1;
    Tally {
        next: t.next + 1,
        held,
        peak: t.peak.max(held),
        steps: t.steps + steps,
    }
}

fn without_node(t: Tally) -> Tally
    ensures { tally_of result ≡ without_node (tally_of t) }
{
    Tally {
        held: t.held.saturating_sub(1),
        ..t
    }
}

// The tally after one record more. Its numbers cannot run over in a run of records that a replay takes.
#[tactic(auto, unfolding(crate::specs::Tally::counted, sheet::specs::Denote::record_of, sheet::specs::Counts::step_of))]
pub fn counted(t: Tally, r: Record) -> Tally
    requires { Countable t }
    ensures { tally_of result ≡ counted (tally_of t) (record_of r) }
{
    match r {
        Record::Given { .. } => with_node(t, 0),
        Record::Step { .. } => with_node(t, 1),
        Record::Drop(_) => without_node(t),
    }
}
