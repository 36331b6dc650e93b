// A case of the press: its answer; where it is accepted, the output and the marks; and whether the bytes beyond them, or where it is refused
// all of them, are as they were.
use clause::Clause;
use press_spec::{Order, Plan};
use press_write::Pressed;
use sheet::Refusal;
use sheet::edition::Edition;
use sheet::limits::TABLE_LINES;
use sheet::narrow::{PRESSED_RECORDS, RECORD_BYTES};
use stdio::text::{self, SetIn};

// The most room and marks of a case: a little more than a press needs. A narrow one needs the most.
const ROOM: usize = RECORD_BYTES * PRESSED_RECORDS + 60;

const MARKS: usize = TABLE_LINES + 60;

// What output and marks hold before.
const OLD: u8 = 0xA5;

// Every byte is looked at, with no end before the last: so the compiler takes many at a time.
fn is_old(bytes: &[u8]) -> bool {
    bytes.iter().fold(true, |old, b| old & (*b == OLD))
}

// Ends the line before it.
fn print_beyond(rt: &impl Print, out: &[u8], marks: &[u8]) {
    if is_old(out) && is_old(marks) {
        text::print(rt, b"\nuntouched\n");
    } else {
        text::print(rt, b"\ntouched\n");
    }
}

fn order_words(order: Order) -> &'static str {
    match order {
        Order::BottomUp => " order bottom-up",
        Order::TopDown => " order top-down",
    }
}

fn print_pressed(rt: &impl Print, edition: Edition, pressed: Pressed) {
    let Pressed {
        records,
        nodes,
        steps,
        peak,
        marked,
        ..
    } = pressed;
    let Clause { positive, negative } = pressed.conclusion;
    let positive = SetIn(edition, positive);
    let negative = SetIn(edition, negative);
    let order = order_words(pressed.order);
    text::print_fmt(
        rt,
        format_args!("= ok {positive} {negative} records {records} nodes {nodes} steps {steps}"),
    );
    text::print_fmt(rt, format_args!(" peak {peak} marked {marked}{order}"));
}

fn print_memory(
    rt: &impl Print,
    edition: Edition,
    records: u16,
    lines: usize,
    out: &[u8],
    marks: &[u8],
) {
    let bytes = edition.record_bytes() * usize::from(records);
    let n = bytes.min(out.len());
    let m = lines.min(marks.len());
    text::print(rt, b"\nout ");
    text::print_bytes(rt, &out[..n]);
    text::print(rt, b"\nmarks ");
    text::print_bytes(rt, &marks[..m]);
    print_beyond(rt, &out[n..], &marks[m..]);
}

fn print_outcome(
    rt: &impl Print,
    edition: Edition,
    answer: Result<Pressed, Refusal>,
    lines: usize,
    out: &[u8],
    marks: &[u8],
) {
    match answer {
        Ok(pressed) => {
            print_pressed(rt, edition, pressed);
            print_memory(rt, edition, pressed.records, lines, out, marks);
        }
        Err(Refusal { why, at }) => {
            let number = sheet::number_of(why);
            text::print_fmt(rt, format_args!("= refused {number} {}", at.0));
            print_beyond(rt, out, marks);
        }
    }
}

// Of the memory of its own, the first bytes are the room and the marks that are lent to the press.
pub(crate) fn run(
    rt: &impl Print,
    plan: Plan,
    sheet: &[u8],
    rules: &[u8],
    room: usize,
    marks: usize,
) {
    let mut out = [OLD; ROOM];
    let mut core = [OLD; MARKS];
    let n = room.min(ROOM);
    let m = marks.min(MARKS);
    let answer = press::press(plan, sheet, rules, &mut out[..n], &mut core[..m]);
    let lines = plan.edition.lines_in(rules.len());
    print_outcome(rt, plan.edition, answer, lines, &out, &core);
}
