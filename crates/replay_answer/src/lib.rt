// The replay's answer, and the decisions of the whole replay, on values alone.
#![tactic(auto)]

ghost use Rattle.std.specs.Prelude.{◌≡◌};
ghost use Rattle.tally.specs.Said.{tally_of};
ghost use Rattle.replay_spec.specs.Slots.{last_of};
ghost use Rattle.replay_slots.specs.Said.{place_of, sought_of};
ghost use Rattle.replay_answer.specs.Answers.{said, ended};

use clause::Clause;
use replay_slots::{Place, Sought};
use sheet::{NodeNo, Reason, RecordNo, Refusal};
use tally::Tally;

// "An accepted replay returns .." these.
#[derive(Clone, Copy)]
pub struct Replayed {
    pub conclusion: Clause,
    pub nodes: u16,
    pub steps: u16,
    pub peak: u16,
}

// What is looked for at the end: the last node, where there is one.
#[tactic(auto, using(crate::proofs::Ending::last_is), unfolding(replay_spec::specs::Slots::last_of))]
pub fn last_sought(t: Tally) -> Sought
    ensures { sought_of result ≡ last_of t.next }
{
    match t.next.checked_sub(1) {
        Some(last) => Sought::Node(NodeNo(last)),
        None => Sought::Nothing,
    }
}

// How a replay ends: refused at record k; or after k records, by what is found of the last node. 16: at the end the last node isn't
// held. It reports the count of records.
#[tactic(auto, unfolding(crate::specs::Answers::said, crate::specs::Answers::ended, replay_spec::specs::Replay::by_last))]
pub fn end(
    verdict: Result<(), Reason>,
    k: RecordNo,
    t: Tally,
    last: Option<Place>,
) -> Result<Replayed, Refusal>
    ensures { said result ≡ ended verdict k.0 (tally_of t) (place_of last) }
{
    verdict.map_err(|why| Refusal { why, at: k })?;
    let Some(Place { slot, .. }) = last else {
        return Err(Refusal {
            why: Reason::NotHeld,
            at: k,
        });
    };
    Ok(Replayed {
        conclusion: slot.clause,
        nodes: t.next,
        steps: t.steps,
        peak: t.peak,
    })
}
