// The press and the replay tied together.
#![tactic(auto)]

ghost use Rattle.std.specs.Prelude.{◌≡◌};
ghost use Rattle.press_spec.specs.Press.{call, press};
ghost use Rattle.demands.specs.Shipping.{ship};
ghost use Rattle.ship.specs.Said.{said_of_shipment};

use press_spec::Plan;
use press_write::Pressed;
use replay_answer::Replayed;
use sheet::Refusal;

// What the press reported, and what the replay of its output answered.
#[derive(Clone, Copy)]
pub struct Shipped {
    pub pressed: Pressed,
    pub replayed: Result<Replayed, Refusal>,
}

// What an office runs before it ships a sheet: presses it, and replays what was written in so many slots. Where the press refuses, nothing is tried.
pub fn press_and_replay(
    plan: Plan,
    sheet: &[u8],
    rules: &[u8],
    out: &mut [u8],
    marks: &mut [u8],
    slots: usize,
) -> Result<Shipped, Refusal>
    ensures answer { said_of_shipment result ≡ ship plan (call sheet.now rules.now out.old marks.old) slots }
    ensures out { out.new ≡ (press plan (call sheet.now rules.now out.old marks.old)).out }
    ensures marks { marks.new ≡ (press plan (call sheet.now rules.now out.old marks.old)).marks }
{
    let pressed = press::press(plan, sheet, rules, out, marks)?;
    let edition = plan.edition;
    let end = edition.bytes_of(usize::from(pressed.records));
    let replayed = replay::own::replay_in(edition, &out[..end], rules, slots);
    Ok(Shipped { pressed, replayed })
}
