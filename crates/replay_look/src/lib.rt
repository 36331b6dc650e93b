// What stands after so many records: the last one's answer, the tally, and what one slot holds. A program that shows a replay record by
// record asks for each slot after each record; the row and the tally are the function's own, and each record is lent to the one step.
#![tactic(auto)]

ghost use Rattle.std.specs.Prelude.{◌≡◌, ◌/◌, min, length, replicate};
ghost use Rattle.sheet.specs.Editions.{record_bytes, most_records};
ghost use Rattle.tally.specs.Tally.{nothing};
ghost use Rattle.replay_spec.specs.Slots.{empty};
ghost use Rattle.replay_spec.specs.Step.{state};
ghost use Rattle.replay_slots.specs.Said.{row_of};
ghost use Rattle.replay_look.specs.After.{after_records, look_at, look_of};

use replay_slots::{Slot, Untaken};
use sheet::edition::Edition;
use sheet::limits::MOST_RECORDS;
use sheet::{RecordNo, SlotNo};
use tally::Tally;

#[derive(Clone, Copy)]
pub struct Look {
    pub answer: Result<(), Untaken>,
    pub tally: Tally,
    pub slot: Slot,
}

fn look_from(
    edition: Edition,
    sheet: &[u8],
    rules: &[u8],
    slots: &mut [Slot],
    records: usize,
    at: SlotNo,
) -> Look
    ensures { look_of result ≡ look_at at.0 (after_records edition rules.now sheet.now (state nothing (row_of slots.old)) (min records (length sheet.now / record_bytes edition))) }
{
    let bytes = edition.record_bytes();
    // No more records than the sheet has whole.
    let n = records.min(edition.records_in(sheet.len()));
    let mut t = tally::nothing();
    // Before any record nothing is refused.
    let mut answer = Ok(());
    for k in 0..n {
        let at = bytes * k;
        let record = &sheet[at..at + bytes];
        answer = replay_step::step(edition, slots, &mut t, rules, record, RecordNo(k));
    }
    Look {
        answer,
        tally: t,
        slot: replay_row::slot_at(slots, at),
    }
}

// In a row of as many slots, but of no more than there may be records in any edition.
pub fn look_after(
    edition: Edition,
    sheet: &[u8],
    rules: &[u8],
    slots: usize,
    records: usize,
    at: SlotNo,
) -> Look
    ensures { look_of result ≡ look_at at.0 (after_records edition rules.now sheet.now (state nothing (replicate (min slots most_records) empty)) (min records (length sheet.now / record_bytes edition))) }
{
    let mut row = [replay_slots::empty(); MOST_RECORDS];
    let n = slots.min(MOST_RECORDS);
    look_from(edition, sheet, rules, &mut row[..n], records, at)
}
