// One record of the replay, on values alone: what it comes to, given the tally and what was found in the row. Whoever has the row and the tally
// does no more than look, put and store.
#![tactic(auto)]

ghost use Rattle.std.specs.Prelude.{◌≡◌, ◌<◌, ◌≤◌};
ghost use Rattle.sheet.specs.Editions.{most_records};
ghost use Rattle.sheet.specs.Denote.{record_of, reading_of};
ghost use Rattle.tally.specs.Said.{tally_of};
ghost use Rattle.replay_slots.specs.Said.{place_of, decided_of};
ghost use Rattle.replay_decide.specs.Decides.{placed, decided};

use replay_slots::{Place, Taken};
use sheet::edition::Edition;
use sheet::{NodeNo, Reason, Record};
use tally::Tally;

// "A node takes the lowest free slot, and a drop zeroes its slot."
#[tactic(auto, unfolding(crate::specs::Decides::placed, sheet::specs::Denote::record_of, sheet::specs::Records::clause))]
fn place_for(next: NodeNo, r: Record, left: Option<Place>, vacant: Option<Place>) -> Option<Place>
    ensures { place_of result ≡ placed next.0 (record_of r) (place_of left) (place_of vacant) }
{
    match r {
        Record::Given { clause, .. } | Record::Step { clause, .. } => {
            replay_slots::into(replay_slots::in_use(next, clause), vacant)
        }
        Record::Drop(_) => replay_slots::into(replay_slots::empty(), left),
    }
}

// What a record comes to. "A refused record changes neither tally nor slots."
#[tactic(auto, unfolding(crate::specs::Decides::decided, crate::specs::Decides::by_checks, sheet::specs::Denote::reading_of))]
pub fn decide(
    edition: Edition,
    t: Tally,
    rules: &[u8],
    reading: Result<Record, Reason>,
    left: Option<Place>,
    right: Option<Place>,
    vacant: Option<Place>,
) -> Result<Taken, Reason>
    requires { (t.next < most_records) × (t.held ≤ t.next) × (t.steps ≤ t.next) }
    ensures { decided_of (tally_of t) result ≡ decided edition rules.now (tally_of t) (reading_of reading) (place_of left) (place_of right) (place_of vacant) }
{
    let r = reading?;
    let next = NodeNo(t.next);
    replay_verdict::check_record(edition, rules, next, r, left, right, vacant)?;
    Ok(Taken {
        tally: tally::counted(t, r),
        place: place_for(next, r, left, vacant),
    })
}
