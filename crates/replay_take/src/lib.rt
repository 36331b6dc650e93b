// One record of the replay that fits, over a lent row of slots and a lent tally, which are changed in place.
#![tactic(auto)]

ghost use Rattle.std.specs.Prelude.{◌≡◌, true, length};
ghost use Rattle.tally.specs.Said.{tally_of};
ghost use Rattle.replay_spec.specs.Step.{state, turn, judged, by_turn, fits};
ghost use Rattle.replay_slots.specs.Said.{row_of};

use replay_slots::Slot;
use sheet::Reason;
use sheet::edition::Edition;
use tally::Tally;

// A record that fits: it is read, looked up, decided on, put into the row or out of it, and counted.
pub fn take(
    edition: Edition,
    slots: &mut [Slot],
    t: &mut Tally,
    rules: &[u8],
    bytes: &[u8],
) -> Result<(), Reason>
    requires { fits edition (length rules.now) (length bytes.now) (tally_of t.old) ≡ true }
    ensures { judged result (state (tally_of t.new) (row_of slots.new)) ≡ by_turn (state (tally_of t.old) (row_of slots.old)) (turn edition rules.now bytes.now (state (tally_of t.old) (row_of slots.old))) }
{
    let reading = replay_sought::read(edition, bytes);
    let left = replay_row::find(slots, replay_sought::left_sought(reading));
    let right = replay_row::find(slots, replay_sought::right_sought(reading));
    let vacant = replay_row::find(slots, replay_sought::room_sought(reading));
    let taken = replay_decide::decide(edition, *t, rules, reading, left, right, vacant)?;
    replay_row::put(slots, taken.place);
    *t = taken.tally;
    Ok(())
}
