// What the public step asks of its caller, and what it answers: whether it is lent what a replay has, and the verdict on what fits.
#![tactic(auto)]

ghost use Rattle.std.specs.Prelude.{◌≡◌};
ghost use Rattle.tally.specs.Said.{tally_of};
ghost use Rattle.replay_spec.specs.Step.{reached, fits, answered};
ghost use Rattle.replay_slots.specs.Said.{said_of_step};

use replay_slots::Untaken;
use sheet::edition::Edition;
use sheet::{Reason, RecordNo, Refusal};
use tally::Tally;

// A tally that a replay within its limit reaches before a record.
#[tactic(auto, unfolding(replay_spec::specs::Step::reached))]
fn within(edition: Edition, t: Tally) -> bool
    ensures { result ≡ reached edition (tally_of t) }
{
    usize::from(t.next) < edition.replay_records() && t.held <= t.next && t.steps <= t.next
}

// What a step asks of its caller: a record's bytes, a rule table that check 4 passes, a tally within a replay's limit.
#[tactic(auto, unfolding(replay_spec::specs::Step::fits, replay_spec::specs::Step::passes))]
pub fn fits(edition: Edition, rules: usize, bytes: usize, t: Tally) -> bool
    ensures { result ≡ fits edition rules bytes (tally_of t) }
{
    bytes == edition.record_bytes()
        && sheet_checks::check_table(edition, rules).is_ok()
        && within(edition, t)
}

// The step's answer to a record that fits.
#[tactic(auto, unfolding(replay_spec::specs::Step::answered, replay_slots::specs::Said::said_of_step))]
pub fn answered(verdict: Result<(), Reason>, number: RecordNo) -> Result<(), Untaken>
    ensures { said_of_step result ≡ answered number.0 verdict }
{
    verdict.map_err(|why| Untaken::Refused(Refusal { why, at: number }))
}
