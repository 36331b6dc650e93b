// "A small program reads `rules.bin` and `sheet.bin`, presses, writes `pressed.bin` if accepted (else leaves that file alone), and prints one
// line." All in the folder that it runs in, and of the narrow edition.
#![tactic(auto)]

use sheet::limits::TABLE_LINES;
use sheet::narrow::{LINE_BYTES, PRESS_RECORDS, PRESSED_RECORDS, RECORD_BYTES};
use std::fs::Files;
use std::io;
use stdio::text;

mod say;

// The longest files that pass the checks on lengths, and the longest that is written.
const RULES: usize = LINE_BYTES * TABLE_LINES;

const SHEET: usize = RECORD_BYTES * PRESS_RECORDS;

const PRESSED: usize = RECORD_BYTES * PRESSED_RECORDS;

// Both files are read before anything is judged, "`rules.bin` tried first".
fn main(rt: HostRuntime) {
    let mut rules = [0u8; RULES];
    let mut sheet = [0u8; SHEET];
    let Ok(rules_length) = program_files::read_file(&rt, b"rules.bin", &mut rules) else {
        return text::print(&rt, b"unreadable rules.bin\n");
    };
    let Ok(sheet_length) = program_files::read_file(&rt, b"sheet.bin", &mut sheet) else {
        return text::print(&rt, b"unreadable sheet.bin\n");
    };
    answer(&rt, &sheet, sheet_length, &rules, rules_length);
}

fn write_pressed<R: Files>(rt: &R, bytes: &[u8]) -> io::Result<()> {
    let mut part = *b"pressed.bin.part0";
    program_files::replace(rt, b"pressed.bin", &mut part, bytes)
}

// Presses what was read, and writes what is accepted.
fn answer<R: Files + Print>(
    rt: &R,
    sheet: &[u8; SHEET],
    sheet_length: usize,
    rules: &[u8; RULES],
    rules_length: usize,
) {
    let mut out = [0u8; PRESSED];
    let mut marks = [0u8; TABLE_LINES];
    let answer = program_whole::press_whole(
        sheet,
        sheet_length,
        rules,
        rules_length,
        &mut out,
        &mut marks,
    );
    match answer {
        Ok(pressed) => {
            let end = program_whole::record_bytes(pressed);
            match write_pressed(rt, &out[..end]) {
                Ok(()) => say::accepted(rt, pressed),
                Err(_) => text::print(rt, b"unwritable pressed.bin\n"),
            }
        }
        Err(refusal) => say::refused(rt, refusal),
    }
}
