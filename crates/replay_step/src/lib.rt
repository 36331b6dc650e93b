// The public step: one record of the replay, over a lent row of slots and a running tally that is lent to each step and changed in place.
#![tactic(auto)]

ghost use Rattle.std.specs.Prelude.{◌≡◌};
ghost use Rattle.tally.specs.Said.{tally_of};
ghost use Rattle.replay_spec.specs.Step.{state, stepped, one_step};
ghost use Rattle.replay_slots.specs.Said.{said_of_step, row_of};

use replay_slots::{Slot, Untaken};
use sheet::RecordNo;
use sheet::edition::Edition;
use tally::Tally;

// One step for whoever lends the row and the tally: what does not fit changes nothing.
pub fn step(
    edition: Edition,
    slots: &mut [Slot],
    t: &mut Tally,
    rules: &[u8],
    bytes: &[u8],
    number: RecordNo,
) -> Result<(), Untaken>
    ensures { stepped (said_of_step result) (state (tally_of t.new) (row_of slots.new)) ≡ one_step edition rules.now bytes.now number.0 (state (tally_of t.old) (row_of slots.old)) }
{
    if replay_fits::fits(edition, rules.len(), bytes.len(), *t) {
        return replay_fits::answered(replay_take::take(edition, slots, t, rules, bytes), number);
    }
    Err(Untaken::Unfit)
}
