// Judging: "Checks 1 to 5 come first, in number order, and report record 0. Then records in order: the first bad record answers",
// with the first number that applies.
#![tactic(auto)]

ghost use Rattle.std.specs.Prelude.{◌≡◌, ◌*◌, ◌/◌, ◌≤◌, length};
ghost use Rattle.sheet.specs.Editions.{record_bytes, press_records, capacity};
ghost use Rattle.press_spec.specs.Judge.{sizes, check_room, check_press, judge};
ghost use Rattle.press_nodes.specs.Tables.{nodes_in};
ghost use Rattle.press_judge.specs.Turns.{judged_in};

use clause::Clause;
use press_nodes::link::Link;
use sheet::edition::Edition;
use sheet::{NodeNo, Reason, RecordNo, Refusal};

// 5: room for output under that of 2N-1 records (48N-24 bytes, wide 80N-40), or marks shorter than the number of rule lines.
#[tactic(auto, unfolding(press_spec::specs::Judge::check_room, sheet::specs::Reasons::unless))]
fn check_room(
    edition: Edition,
    sheet: usize,
    rules: usize,
    out: usize,
    marks: usize,
) -> Result<(), Reason>
    requires { (1 ≤ sheet / record_bytes edition) × (sheet / record_bytes edition ≤ press_records edition) }
    ensures { result ≡ check_room edition (sizes sheet rules out marks) }
{
    let most = 2 * edition.records_in(sheet) - 1;
    let lines = edition.lines_in(rules);
    if edition.bytes_of(most) <= out && lines <= marks {
        return Ok(());
    }
    Err(Reason::Room)
}

// 1 to 5, of the lengths alone.
#[tactic(auto, unfolding(press_spec::specs::Judge::check_press, sheet::specs::Reasons::and_then))]
pub fn judge_lengths(
    edition: Edition,
    sheet: usize,
    rules: usize,
    out: usize,
    marks: usize,
) -> Result<(), Reason>
    ensures { result ≡ check_press edition (sizes sheet rules out marks) }
{
    sheet_checks::check_lengths(edition, edition.press_records(), sheet, rules)?;
    check_room(edition, sheet, rules, out, marks)
}

// "Nodes are given and resolution records, numbered from 0": the press knows no drops, so every record before node n is a node, and node n is
// record n. No other function makes a record's number of a node's.
fn record_of(n: NodeNo) -> RecordNo
    ensures { result.0 ≡ n.0 }
{
    RecordNo(n.index())
}

// Every record in order: the nodes stand in the tables where all are proper, and else the first that is not is refused.
pub fn judge(
    edition: Edition,
    sheet: &[u8],
    rules: &[u8],
    links: &mut [Link],
    clauses: &mut [Clause],
) -> Result<(), Refusal>
    requires clauses_len { (length clauses.old ≡ length links.old) × (length links.old ≤ capacity) }
    requires sheet_len { length sheet.now ≡ record_bytes edition * length links.old }
    ensures { judged_in result (nodes_in links.new clauses.new) ≡ judge edition rules.now sheet.now }
{
    for judged in 0..links.len() {
        let next = NodeNo(judged as u16);
        let here = record_of(next);
        let at = edition.start(here);
        let end = at + edition.record_bytes();
        let verdict = press_record::judge_turn(
            edition,
            &sheet[at..end],
            rules,
            links,
            clauses,
            next,
        );
        if let Err(why) = verdict {
            return Err(Refusal { why, at: here });
        }
    }
    Ok(())
}
