// Runs the cases of a stream and prints what press and replay answer, in the words of the second program (`reference/src/stream.rs`).
// Each program over it is one call, with a stream of its own. No contract can say what is read or printed: these functions are proved
// safe and ending, and what they print is compared.
//
// A case is sixteen bytes, then its sheet and its rule table. Numbers are little-endian.
//
//   byte 0   what is run: 0 the press, 1 the replay, 2 the replay, shown record by record
//   byte 1   the edition: 0 narrow, 1 wide
//   byte 2   the recycling of a press: 0 the reset, 1 the intersection; zero for the replay
//   byte 3   the lowering of a press: 0 nothing, 1 the units, 2 the univalents; zero for the replay
//   4-5      bytes of the sheet, at most 49,176
//   6-7      bytes of the rule table, at most 32,800
//   8-9      bytes of room for the press, at most 49,188; slots for the replay
//   10-11    bytes of marks for the press, at most 1,084; zero for the replay
//   12-13    bytes of the sheet that follow; the rest of it is zero
//   14-15    bytes of the rule table that follow; the rest of it is zero
//
// Of a length beyond its limit the limit is taken. The stream ends where no whole case follows.
#![tactic(auto)]

mod press_case;
mod replay_case;

use press_spec::{Lowerable, Plan, Recycling};
use sheet::edition::Edition;
use sheet::limits::TABLE_LINES;
use sheet::{narrow, wide};
use std::{fmt, io};
use stdio::text;

// The longest sheet and rule table of a case: a little more than the limits of either edition allow. A narrow sheet may be the longer one, a wide
// rule table is.
const SHEET: usize = narrow::RECORD_BYTES * (narrow::REPLAY_RECORDS + 2);

const RULES: usize = wide::LINE_BYTES * (TABLE_LINES + 1);

// The bytes before those of the sheet.
const HEADER: usize = 16;

// What is run.
#[derive(Clone, Copy)]
enum Job {
    Press,
    Replay,
    Shown,
}

impl From<u8> for Job {
    fn from(byte: u8) -> Job {
        match byte {
            0 => Job::Press,
            2 => Job::Shown,
            _ => Job::Replay,
        }
    }
}

#[derive(Clone, Copy)]
struct Header {
    job: Job,
    plan: Plan,
    sheet: usize,
    rules: usize,
    room: usize,
    marks: usize,
    sheet_follows: usize,
    rules_follows: usize,
}

// A number that names nothing stands for the last choice.
fn plan_of(edition: u8, recycling: u8, lowering: u8) -> Plan {
    Plan {
        edition: Edition::try_from(u32::from(edition)).unwrap_or(Edition::Wide),
        recycling: Recycling::try_from(u32::from(recycling)).unwrap_or(Recycling::Intersection),
        lowering: match lowering {
            0 => None,
            which => Some(Lowerable::try_from(u32::from(which)).unwrap_or(Lowerable::Univalents)),
        },
    }
}

impl From<&[u8; HEADER]> for Header {
    fn from(bytes: &[u8; HEADER]) -> Header {
        let number = |at: usize| usize::from(base::u16_at(bytes, at));
        Header {
            job: Job::from(bytes[0]),
            plan: plan_of(bytes[1], bytes[2], bytes[3]),
            sheet: number(4),
            rules: number(6),
            room: number(8),
            marks: number(10),
            sheet_follows: number(12),
            rules_follows: number(14),
        }
    }
}

fn edition_words(edition: Edition) -> &'static str {
    match edition {
        Edition::Narrow => " narrow",
        Edition::Wide => " wide",
    }
}

fn press_words(recycling: Recycling) -> &'static str {
    match recycling {
        Recycling::Reset => " press reset",
        Recycling::Intersection => " press intersection",
    }
}

fn lowering_words(lowering: Option<Lowerable>) -> &'static str {
    match lowering {
        None => " nothing",
        Some(Lowerable::Units) => " units",
        Some(Lowerable::Univalents) => " univalents",
    }
}

// Each with the blank before it: words are one piece of what is printed.
impl fmt::Display for Header {
    fn fmt<W: fmt::Write>(&self, f: &mut fmt::Formatter<W>) -> fmt::Result {
        let Header {
            job,
            plan,
            sheet,
            rules,
            room,
            marks,
            ..
        } = *self;
        f.write_str(edition_words(plan.edition))?;
        match job {
            Job::Press => {
                f.write_str(press_words(plan.recycling))?;
                f.write_str(lowering_words(plan.lowering))?;
            }
            Job::Replay | Job::Shown => f.write_str(" replay")?,
        }
        write!(f, " {sheet} {rules} {room} {marks}")
    }
}

fn print_case(rt: &impl Print, number: u64, head: Header, sheet: &[u8], rules: &[u8]) {
    text::print_fmt(rt, format_args!("case {number}{head}\n"));
    let edition = head.plan.edition;
    match head.job {
        Job::Press => press_case::run(rt, head.plan, sheet, rules, head.room, head.marks),
        Job::Replay => replay_case::run(rt, edition, sheet, rules, head.room),
        Job::Shown => {
            replay_case::run(rt, edition, sheet, rules, head.room);
            replay_case::show(rt, edition, sheet, rules, head.room);
        }
    }
}

// The sheet and the rule table are read into the first bytes of what is lent, which is zero.
fn run_in(
    rt: &(impl Input + Print),
    number: u64,
    head: Header,
    sheet: &mut [u8],
    rules: &mut [u8],
) -> io::Result<()> {
    stdio::read_exact(rt, sheet, head.sheet_follows)?;
    stdio::read_exact(rt, rules, head.rules_follows)?;
    let s = head.sheet.min(sheet.len());
    let r = head.rules.min(rules.len());
    print_case(rt, number, head, &sheet[..s], &rules[..r]);
    Ok(())
}

fn run_next(rt: &(impl Input + Print), number: u64) -> io::Result<()> {
    let mut bytes = [0u8; HEADER];
    stdio::read_exact(rt, &mut bytes, HEADER)?;
    let mut sheet = [0u8; SHEET];
    let mut rules = [0u8; RULES];
    run_in(rt, number, Header::from(&bytes), &mut sheet, &mut rules)
}

// Every case of standard input. A proved loop has to end, and nothing says that the input does: it counts to a number that no run reaches.
pub fn run(rt: &(impl Input + Print)) {
    for number in 0..u64::MAX {
        if run_next(rt, number).is_err() {
            return;
        }
    }
}
