// A case of the replay: its answer; and for one that is shown, what stands after each record.
use clause::Clause;
use replay_answer::Replayed;
use replay_slots::{Slot, Untaken};
use sheet::edition::Edition;
use sheet::{Refusal, SlotNo};
use stdio::text::{self, SetIn};
use tally::Tally;

fn print_replayed(rt: &impl Print, edition: Edition, replayed: Replayed) {
    let Replayed {
        conclusion,
        nodes,
        steps,
        peak,
    } = replayed;
    let Clause { positive, negative } = conclusion;
    let positive = SetIn(edition, positive);
    let negative = SetIn(edition, negative);
    text::print_fmt(
        rt,
        format_args!("= ok {positive} {negative} nodes {nodes} steps {steps} peak {peak}\n"),
    );
}

pub(crate) fn run(rt: &impl Print, edition: Edition, sheet: &[u8], rules: &[u8], slots: usize) {
    match replay::own::replay_in(edition, sheet, rules, slots) {
        Ok(replayed) => print_replayed(rt, edition, replayed),
        Err(Refusal { why, at }) => {
            let number = sheet::number_of(why);
            text::print_fmt(rt, format_args!("= refused {number} {}\n", at.0));
        }
    }
}

// "<node>:<positive>:<negative>", or "-" for a free slot.
fn print_slot(rt: &impl Print, edition: Edition, slot: Slot) {
    let Slot { used, node, clause } = slot;
    if used == 0 {
        return text::print(rt, b" -");
    }
    let positive = SetIn(edition, clause.positive);
    let negative = SetIn(edition, clause.negative);
    text::print_fmt(rt, format_args!(" {node}:{positive}:{negative}"));
}

fn print_answer(rt: &impl Print, answer: Result<(), Untaken>) {
    match answer {
        Ok(()) => text::print(rt, b"taken"),
        Err(Untaken::Refused(Refusal { why, at })) => {
            let number = sheet::number_of(why);
            text::print_fmt(rt, format_args!("refused {number} {}", at.0));
        }
        Err(Untaken::Unfit) => text::print(rt, b"unfit"),
    }
}

fn print_tally(rt: &impl Print, tally: Tally) {
    let Tally {
        next,
        held,
        peak,
        steps,
    } = tally;
    text::print_fmt(
        rt,
        format_args!(" tally {next} {held} {peak} {steps} slots"),
    );
}

// What stands after so many records, of which the last is shown. Its answer.
fn print_record(
    rt: &impl Print,
    edition: Edition,
    sheet: &[u8],
    rules: &[u8],
    slots: usize,
    records: usize,
) -> Result<(), Untaken> {
    let seen = replay_look::look_after(edition, sheet, rules, slots, records, SlotNo(0));
    print_answer(rt, seen.answer);
    print_tally(rt, seen.tally);
    for i in 0..slots {
        let seen = replay_look::look_after(edition, sheet, rules, slots, records, SlotNo(i));
        print_slot(rt, edition, seen.slot);
    }
    text::print(rt, b"\n");
    seen.answer
}

// Record after record, up to one that is refused; none where the lengths are.
pub(crate) fn show(rt: &impl Print, edition: Edition, sheet: &[u8], rules: &[u8], slots: usize) {
    let most = edition.replay_records();
    if sheet_checks::check_lengths(edition, most, sheet.len(), rules.len()).is_ok() {
        for k in 0..edition.records_in(sheet.len()) {
            if print_record(rt, edition, sheet, rules, slots, k + 1).is_err() {
                break;
            }
        }
    }
}
