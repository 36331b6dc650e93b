// What is said of an answer: 0 or the refusal's number, and a lent row of words.
#![tactic(auto)]

ghost use Rattle.std.specs.Prelude.{◌≡◌, [], ◌∷◌, ◌-◌, ◌<◌, replicate};
ghost use Rattle.press_spec.specs.Better.{order_number};
ghost use Rattle.press.specs.Said.{said};
ghost use Rattle.replay_answer.specs.Answers.{said as said_of_replay};
ghost use Rattle.c_report.specs.Report.{fill, press_code, press_words, replay_code, replay_words};

use clause::Clause;
use press_spec::Order;
use press_write::Pressed;
use replay_answer::Replayed;
use sheet::Refusal;

pub mod named;

// The words of a report of a press, and of one of a replay.
const PRESS_WORDS: usize = 11;

const REPLAY_WORDS: usize = 8;

// As many of the words as there is room for.
fn fill(report: &mut [u64], words: &[u64])
    ensures { report.new ≡ fill 0 words.now report.old }
{
    let n = report.len().min(words.len());
    report[..n].copy_from_slice(&words[..n]);
}

#[tactic(auto, unfolding(press_spec::specs::Better::order_number))]
fn order_number(order: Order) -> u64
    ensures { result ≡ order_number order }
{
    order as u64
}

// The words of a refusal: its record, and zeros.
fn refused<const N: usize>(refusal: Refusal) -> [u64; N]
    requires { 0 < N }
    ensures { result ≡ refusal.at.0 ∷ replicate (N - 1) 0 }
{
    let mut words = [0; N];
    words[0] = refusal.at.0 as u64;
    words
}

fn words_of_press(pressed: Pressed) -> [u64; PRESS_WORDS]
    ensures { result ≡ press_words (said (Ok pressed)) }
{
    let Clause { positive, negative } = pressed.conclusion;
    [
        0,
        positive.low,
        negative.low,
        u64::from(pressed.records),
        u64::from(pressed.nodes),
        u64::from(pressed.steps),
        u64::from(pressed.peak),
        u64::from(pressed.marked),
        positive.high,
        negative.high,
        order_number(pressed.order),
    ]
}

// What is said of a press.
#[tactic(auto, unfolding(crate::specs::Report::press_code, crate::specs::Report::press_words, press::specs::Said::said))]
pub fn tell_press(answer: Result<Pressed, Refusal>, report: &mut [u64]) -> u32
    ensures code { result ≡ press_code (said answer) }
    ensures words { report.new ≡ fill 0 (press_words (said answer)) report.old }
{
    match answer {
        Ok(pressed) => {
            fill(report, &words_of_press(pressed));
            0
        }
        Err(refusal) => {
            fill(report, &refused::<PRESS_WORDS>(refusal));
            sheet::number_of(refusal.why)
        }
    }
}

fn words_of_replay(replayed: Replayed) -> [u64; REPLAY_WORDS]
    ensures { result ≡ replay_words (said_of_replay (Ok replayed)) }
{
    let conclusion = replayed.conclusion;
    [
        0,
        conclusion.positive.low,
        conclusion.negative.low,
        u64::from(replayed.nodes),
        u64::from(replayed.steps),
        u64::from(replayed.peak),
        conclusion.positive.high,
        conclusion.negative.high,
    ]
}

// What is said of a replay.
#[tactic(auto, unfolding(crate::specs::Report::replay_code, crate::specs::Report::replay_words, replay_answer::specs::Answers::said))]
pub fn tell_replay(answer: Result<Replayed, Refusal>, report: &mut [u64]) -> u32
    ensures code { result ≡ replay_code (said_of_replay answer) }
    ensures words { report.new ≡ fill 0 (replay_words (said_of_replay answer)) report.old }
{
    match answer {
        Ok(replayed) => {
            fill(report, &words_of_replay(replayed));
            0
        }
        Err(refusal) => {
            fill(report, &refused::<REPLAY_WORDS>(refusal));
            sheet::number_of(refusal.why)
        }
    }
}
