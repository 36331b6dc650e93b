// The symbols of the C interface, as include/tempuquile.h declares them: each calls the function of `c_exports` that has its name, and promises the
// same. Only a static library has symbols, and no crate can use one, so `c_exports` is a crate of its own.
#![tactic(auto)]

ghost use Rattle.std.specs.Prelude.{◌≡◌};
ghost use Rattle.press_spec.specs.Press.{call};
ghost use Rattle.replay_slots.specs.Said.{row_of};
ghost use Rattle.c_exports.specs.Calls.{pressing, press_by, replaying, replay_by};

use replay_slots::Slot;

#[unsafe(no_mangle)]
pub extern "C" fn tempuquile_press(
    edition: u32,
    recycling: u32,
    lowering: u32,
    sheet: &[u8],
    rules: &[u8],
    out: &mut [u8],
    marks: &mut [u8],
    report: &mut [u64],
) -> u32
    ensures { pressing result out.new marks.new report.new ≡ press_by edition recycling lowering (call sheet.now rules.now out.old marks.old) report.old }
{
    c_exports::tempuquile_press(
        edition, recycling, lowering, sheet, rules, out, marks, report,
    )
}

#[unsafe(no_mangle)]
pub extern "C" fn tempuquile_replay(
    edition: u32,
    sheet: &[u8],
    rules: &[u8],
    slots: &mut [Slot],
    report: &mut [u64],
) -> u32
    ensures { replaying result (row_of slots.new) report.new ≡ replay_by edition sheet.now rules.now (row_of slots.old) report.old }
{
    c_exports::tempuquile_replay(edition, sheet, rules, slots, report)
}
