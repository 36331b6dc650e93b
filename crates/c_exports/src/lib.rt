// The C interface: the press and the replay with numbers, slices and references only, as include/tempuquile.h declares them. `edition` is 0
// for the narrow edition and 1 for the wide one, `recycling` 0 for the reset and 1 for the intersection, `lowering` 0 for none, 1 for the
// units and 2 for the univalents; any other edition is answered 255, any other recycling 254, any other lowering 253, and nothing is touched.
#![tactic(auto)]

ghost use Rattle.std.specs.Prelude.{◌≡◌};
ghost use Rattle.press_spec.specs.Press.{call};
ghost use Rattle.replay_slots.specs.Said.{row_of};
ghost use Rattle.c_exports.specs.Calls.{pressing, press_by, replaying, replay_by};

use c_report::named;
use c_report::named::Unnamed;
use replay_slots::Slot;
use sheet::edition::Edition;

// Presses `sheet` against `rules` into `out`, marks the rule lines used in `marks`, and fills `report` with the record, positive,
// negative, records, nodes, steps, peak, marked and the sets' high words, as many as fit. Answers 0, or the number of the refusal.
pub fn tempuquile_press(
    edition: u32,
    recycling: u32,
    lowering: u32,
    sheet: &[u8],
    rules: &[u8],
    out: &mut [u8],
    marks: &mut [u8],
    report: &mut [u64],
) -> u32
    ensures { pressing result out.new marks.new report.new ≡ press_by edition recycling lowering (call sheet.now rules.now out.old marks.old) report.old }
{
    match named::plan_of(edition, recycling, lowering) {
        Ok(plan) => c_report::tell_press(press::press(plan, sheet, rules, out, marks), report),
        Err(what) => u32::from(what),
    }
}

// Replays `sheet` against `rules` in `slots`, and fills `report` with the record, positive, negative, nodes, steps, peak and the sets'
// high words, as many as fit. Answers 0, or the number of the refusal.
pub fn tempuquile_replay(
    edition: u32,
    sheet: &[u8],
    rules: &[u8],
    slots: &mut [Slot],
    report: &mut [u64],
) -> u32
    ensures { replaying result (row_of slots.new) report.new ≡ replay_by edition sheet.now rules.now (row_of slots.old) report.old }
{
    match Edition::try_from(edition) {
        Ok(of) => c_report::tell_replay(replay::replay(of, sheet, rules, slots), report),
        Err(none) => u32::from(Unnamed::from(none)),
    }
}
