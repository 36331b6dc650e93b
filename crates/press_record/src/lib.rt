// One record of the press: it is judged against the nodes before it, with the first number that applies, and stored.
#![tactic(auto)]

ghost use Rattle.std.specs.Prelude.{◌≡◌, ℕ, ◌<◌, ◌≤◌, List, length, take};
ghost use Rattle.clause.specs.Denote.{literals_of};
ghost use Rattle.sheet.specs.declared.edition.Edition.{Edition};
ghost use Rattle.sheet.specs.Editions.{record_bytes};
ghost use Rattle.sheet.specs.Records.{step};
ghost use Rattle.press_spec.specs.Judge.{check_node, turn};
ghost use Rattle.press_nodes.specs.declared.link.Link.{Link as CodeLink};
ghost use Rattle.press_nodes.specs.Tables.{nodes_in};
ghost use Rattle.press_record.specs.Turns.{turn_says, turn_stores};

use clause::Clause;
use press_nodes::link::Link;
use press_nodes::{clause_table, node};
use sheet::edition::Edition;
use sheet::{NodeNo, Reason, Record};

// 9, 11 and 12, of a step after `next` nodes.
fn check_step(
    clauses: &[Clause],
    next: NodeNo,
    pivot: u8,
    left: NodeNo,
    right: NodeNo,
    written: Clause,
) -> Result<(), Reason>
    requires { next.0 ≤ length clauses.now }
    ensures { (e : Edition) (rules : List ℕ) (links : List CodeLink) → next.0 ≤ length links → result ≡ check_node e rules (take next.0 (nodes_in links clauses.now)) (step pivot left.0 right.0 (literals_of written)) }
{
    sheet_checks::check_earlier(next, left)?;
    sheet_checks::check_earlier(next, right)?;
    let left_clause = clause_table::clause_at(clauses, left);
    let right_clause = clause_table::clause_at(clauses, right);
    sheet_checks::check_step(pivot, left_clause, right_clause, written)
}

// Record k: it is judged against the k nodes before it, and stored as node k if it is proper.
pub fn judge_turn(
    edition: Edition,
    bytes: &[u8],
    rules: &[u8],
    links: &mut [Link],
    clauses: &mut [Clause],
    k: NodeNo,
) -> Result<(), Reason>
    requires { (length clauses.old ≡ length links.old) × (k.0 < length links.old) × (record_bytes edition ≤ length bytes.now) }
    ensures { (result ≡ turn_says (turn edition rules.now bytes.now (take k.0 (nodes_in links.old clauses.old)))) × (nodes_in links.new clauses.new ≡ turn_stores k.0 (turn edition rules.now bytes.now (take k.0 (nodes_in links.old clauses.old))) (nodes_in links.old clauses.old)) }
{
    let record = sheet_record::read_record(edition, bytes, false)?;
    match record {
        Record::Given { line, clause } => {
            sheet_checks::check_given(edition, rules, line, clause)?;
            node::put_given(links, clauses, k, line, clause);
            Ok(())
        }
        Record::Step {
            pivot,
            left,
            right,
            clause,
        } => {
            check_step(clauses, k, pivot, left, right, clause)?;
            node::put_step(links, clauses, k, pivot, left, right, clause);
            Ok(())
        }
        Record::Drop(_) => Err(Reason::Kind),
    }
}
