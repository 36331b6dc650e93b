// The controller's side: checks a sheet while holding only undropped clauses, in a lent row of slots.
#![tactic(auto)]

ghost use Rattle.std.specs.Prelude.{◌≡◌};
ghost use Rattle.sheet.specs.Editions.{replay_records};
ghost use Rattle.sheet.specs.Checks.{check_lengths};
ghost use Rattle.replay_spec.specs.Replay.{outcome, replay};
ghost use Rattle.replay_slots.specs.Said.{row_of};
ghost use Rattle.replay_answer.specs.Answers.{said};

use replay_answer::Replayed;
use replay_slots::Slot;
use sheet::edition::Edition;
use sheet::{Reason, RecordNo, Refusal};

pub mod own;

// 1 to 4, of the lengths alone, with the most records that the replay takes.
fn check_lengths(edition: Edition, sheet: usize, rules: usize) -> Result<(), Reason>
    ensures { result ≡ check_lengths edition (replay_records edition) sheet rules }
{
    sheet_checks::check_lengths(edition, edition.replay_records(), sheet, rules)
}

// The whole replay: checks 1 to 4, a clear row, record by record, and a clear row again. The edition, the sheet and the rule table are three
// parameters, as C and the programs have them: a struct of them would only be taken apart again.
pub fn replay(
    edition: Edition,
    sheet: &[u8],
    rules: &[u8],
    slots: &mut [Slot],
) -> Result<Replayed, Refusal>
    ensures { outcome (said result) (row_of slots.new) ≡ replay edition sheet.now rules.now (row_of slots.old) }
{
    let verdict = check_lengths(edition, sheet.len(), rules.len());
    if verdict.is_err() {
        return replay_answer::end(verdict, RecordNo(0), tally::nothing(), None);
    }
    replay_row::clear(slots);
    let ran = replay_run::run(edition, sheet, rules, slots);
    replay_row::clear(slots);
    ran.answer
}
