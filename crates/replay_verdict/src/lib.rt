// What is wrong with a record that reads (9 to 15), by what was found in the row.
#![tactic(auto)]

ghost use Rattle.std.specs.Prelude.{◌≡◌};
ghost use Rattle.sheet.specs.Denote.{record_of};
ghost use Rattle.replay_slots.specs.Said.{place_of};
ghost use Rattle.replay_verdict.specs.Found.{check_place, check_found};

use replay_slots::Place;
use sheet::edition::Edition;
use sheet::{NodeNo, Reason, Record};

// 10: named node was dropped. 15: every slot holds a node.
#[tactic(auto, unfolding(crate::specs::Found::check_place, sheet::specs::Reasons::unless, replay_spec::specs::Slots::is_place))]
fn check_place(why: Reason, place: Option<Place>) -> Result<(), Reason>
    ensures { result ≡ check_place why (place_of place) }
{
    match place {
        Some(_) => Ok(()),
        None => Err(why),
    }
}

// The first number that applies to a record that reads.
#[tactic(auto, unfolding(crate::specs::Found::check_found, sheet::specs::Denote::record_of, sheet::specs::Reasons::and_then, replay_spec::specs::Step::first_of))]
pub fn check_record(
    edition: Edition,
    rules: &[u8],
    next: NodeNo,
    r: Record,
    left: Option<Place>,
    right: Option<Place>,
    vacant: Option<Place>,
) -> Result<(), Reason>
    ensures { result ≡ check_found edition rules.now next.0 (record_of r) (place_of left) (place_of right) (place_of vacant) }
{
    let roomy = check_place(Reason::Full, vacant);
    let left_held = check_place(Reason::Dropped, left);
    match r {
        Record::Given { line, clause } => {
            sheet_checks::check_given(edition, rules, line, clause).and(roomy)
        }
        Record::Step {
            pivot,
            left: left_node,
            right: right_node,
            clause,
        } => {
            sheet_checks::check_earlier(next, left_node)?;
            sheet_checks::check_earlier(next, right_node)?;
            left_held?;
            check_place(Reason::Dropped, right)?;
            let left_slot = replay_slots::slot_in(left);
            let right_slot = replay_slots::slot_in(right);
            sheet_checks::check_step(pivot, left_slot.clause, right_slot.clause, clause).and(roomy)
        }
        Record::Drop(n) => sheet_checks::check_earlier(next, n).and(left_held),
    }
}
