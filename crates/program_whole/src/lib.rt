// "It judges a file by its whole length, however little of it fits in memory."
#![tactic(auto)]

ghost use Rattle.std.specs.Prelude.{◌≡◌, List, ℕ, ◌*◌, ◌≤◌, length};
ghost use Rattle.sheet.specs.declared.edition.Edition.TheVariants.{Narrow};
ghost use Rattle.sheet.specs.Editions.{record_bytes, line_bytes, press_records, table_lines};
ghost use Rattle.press.specs.Said.{said};
ghost use Rattle.press_spec.specs.Press.{call, outcome, press};
ghost use Rattle.program_whole.specs.Whole.{program_plan, Starts, Fits};

use press_spec::{Plan, Recycling};
use press_write::Pressed;
use sheet::edition::Edition;
use sheet::{RecordNo, Refusal};

// What the program presses by.
pub const PLAN: Plan = Plan {
    edition: Edition::Narrow,
    recycling: Recycling::Intersection,
    lowering: None,
};

// Presses two files of the narrow edition, of which the starts are at hand: the answer is that of the whole files. The
// lengths are those of the files, not of the starts, so they stand beside them.
pub fn press_whole(
    sheet: &[u8],
    sheet_length: usize,
    rules: &[u8],
    rules_length: usize,
    out: &mut [u8],
    marks: &mut [u8],
) -> Result<Pressed, Refusal>
    requires { (record_bytes Narrow * press_records Narrow ≤ length sheet.now) × (line_bytes Narrow * table_lines Narrow ≤ length rules.now) }
    ensures whole { (s t : List ℕ) → Starts s sheet_length sheet.now → Starts t rules_length rules.now → outcome (said result) out.new marks.new ≡ press program_plan (call s t out.old marks.old) }
    ensures fits { Fits (length out.old) result }
{
    let verdict = press_judge::judge_lengths(
        Edition::Narrow,
        sheet_length,
        rules_length,
        out.len(),
        marks.len(),
    );
    if let Err(why) = verdict {
        let at = RecordNo(0);
        return Err(Refusal { why, at });
    }
    press::press(
        PLAN,
        &sheet[..sheet_length],
        &rules[..rules_length],
        out,
        marks,
    )
}

// How much of the output is the pressed sheet.
pub fn record_bytes(pressed: Pressed) -> usize
    ensures { result ≡ record_bytes Narrow * pressed.records }
{
    sheet::narrow::RECORD_BYTES * usize::from(pressed.records)
}
