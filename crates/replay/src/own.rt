// The replay in a row of its own, for callers with no slots to lend. No replay holds more nodes than it takes records, so any larger number of
// slots answers as that one does (`replay-at-most`), and a row of as many as any edition takes is enough for every number and every edition.
ghost use Rattle.std.specs.Prelude.{◌≡◌, replicate};
ghost use Rattle.replay_spec.specs.Slots.{empty};
ghost use Rattle.replay_spec.specs.Replay.{replay};
ghost use Rattle.replay_answer.specs.Answers.{said};

use replay_answer::Replayed;
use sheet::Refusal;
use sheet::edition::Edition;
use sheet::limits::MOST_RECORDS;

pub fn replay_in(
    edition: Edition,
    sheet: &[u8],
    rules: &[u8],
    slots: usize,
) -> Result<Replayed, Refusal>
    ensures { said result ≡ (replay edition sheet.now rules.now (replicate slots empty)).answer }
{
    let mut row = [replay_slots::empty(); MOST_RECORDS];
    let n = slots.min(MOST_RECORDS);
    crate::replay(edition, sheet, rules, &mut row[..n])
}
