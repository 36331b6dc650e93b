// The records of the sheet, one after another: what a step does, again and again, with a tally of its own. Beside the answer it says what
// the tally and the slots are where it stopped, so that a loop that idles would not do.
#![tactic(auto)]

ghost use Rattle.std.specs.Prelude.{◌≡◌, ◌/◌, length, Ok};
ghost use Rattle.sheet.specs.Editions.{record_bytes, replay_records};
ghost use Rattle.sheet.specs.Checks.{check_lengths};
ghost use Rattle.tally.specs.Tally.{nothing};
ghost use Rattle.tally.specs.Said.{tally_of};
ghost use Rattle.replay_spec.specs.Step.{state};
ghost use Rattle.replay_spec.specs.Replay.{ran, ran_through};
ghost use Rattle.replay_slots.specs.Said.{row_of};
ghost use Rattle.replay_answer.specs.Answers.{said};

use replay_answer::Replayed;
use replay_slots::Slot;
use sheet::edition::Edition;
use sheet::{RecordNo, Refusal};
use tally::Tally;

#[derive(Clone, Copy)]
pub struct Ran {
    pub answer: Result<Replayed, Refusal>,
    pub tally: Tally,
}

pub fn run(edition: Edition, sheet: &[u8], rules: &[u8], slots: &mut [Slot]) -> Ran
    requires { check_lengths edition (replay_records edition) (length sheet.now) (length rules.now) ≡ Ok tt }
    ensures { ran (said result.answer) (state (tally_of result.tally) (row_of slots.new)) ≡ ran_through edition rules.now sheet.now (length sheet.now / record_bytes edition) 0 (state nothing (row_of slots.old)) }
{
    let bytes = edition.record_bytes();
    let records = sheet.len() / bytes;
    let mut t = tally::nothing();
    for k in 0..records {
        let at = bytes * k;
        let verdict = replay_take::take(edition, slots, &mut t, rules, &sheet[at..at + bytes]);
        if verdict.is_err() {
            let answer = replay_answer::end(verdict, RecordNo(k), t, None);
            return Ran { answer, tally: t };
        }
    }
    let last = replay_row::find(slots, replay_answer::last_sought(t));
    let answer = replay_answer::end(Ok(()), RecordNo(records), t, last);
    Ran { answer, tally: t }
}
