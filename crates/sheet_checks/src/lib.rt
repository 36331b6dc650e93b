// The checks that press and replay share, each on values, in the order of the scope document.
#![tactic(auto)]

ghost use Rattle.std.specs.Prelude.{◌≡◌};
ghost use Rattle.clause.specs.Denote.{literals_of};
ghost use Rattle.sheet.specs.Checks.{check_table, check_lengths, check_earlier, check_result, check_step, check_one_way, check_given};

use clause::Clause;
use sheet::edition::Edition;
use sheet::{LineNo, NodeNo, Reason, limits};
use sheet_read::lines;

// 4: rule table isn't a multiple of a line's bytes, or over 1,024 lines.
#[tactic(auto, unfolding(sheet::specs::Checks::check_table, sheet::specs::Reasons::unless))]
pub fn check_table(edition: Edition, rules: usize) -> Result<(), Reason>
    ensures { result ≡ check_table edition rules }
{
    let bytes = edition.line_bytes();
    if rules % bytes == 0 && rules / bytes <= limits::TABLE_LINES {
        return Ok(());
    }
    Err(Reason::Table)
}

// 1 to 4, of the lengths alone, with the most records that the caller takes.
#[tactic(auto, unfolding(sheet::specs::Checks::check_lengths, sheet::specs::Reasons::unless))]
pub fn check_lengths(
    edition: Edition,
    most: usize,
    sheet: usize,
    rules: usize,
) -> Result<(), Reason>
    ensures { result ≡ check_lengths edition most sheet rules }
{
    let bytes = edition.record_bytes();
    if sheet % bytes != 0 {
        return Err(Reason::Ragged);
    }
    if sheet == 0 {
        return Err(Reason::Empty);
    }
    if most < sheet / bytes {
        return Err(Reason::Long);
    }
    check_table(edition, rules)
}

// 9: named node isn't earlier.
#[tactic(auto, unfolding(sheet::specs::Checks::check_earlier, sheet::specs::Reasons::unless))]
pub fn check_earlier(next: NodeNo, n: NodeNo) -> Result<(), Reason>
    ensures { result ≡ check_earlier next.0 n.0 }
{
    if n.0 < next.0 {
        return Ok(());
    }
    Err(Reason::NotEarlier)
}

// 12: written clause lacks a literal of the result. 18: it lacks none but has at least one too many.
#[tactic(auto, unfolding(sheet::specs::Checks::check_result, sheet::specs::Reasons::unless))]
fn check_result(c: Clause, res: Clause) -> Result<(), Reason>
    ensures { result ≡ check_result (literals_of c) (literals_of res) }
{
    if clause::inside(res, c) {
        if clause::inside(c, res) {
            return Ok(());
        }
        return Err(Reason::LiteralTooMany);
    }
    Err(Reason::LiteralMissing)
}

// 11: +p missing on the left or -p on the right.
#[tactic(auto, unfolding(sheet::specs::Checks::check_step, sheet::specs::Reasons::unless, clause::specs::Clauses::holds))]
pub fn check_step(p: u8, l: Clause, r: Clause, c: Clause) -> Result<(), Reason>
    ensures { result ≡ check_step p (literals_of l) (literals_of r) (literals_of c) }
{
    if clause::has(l.positive, p) && clause::has(r.negative, p) {
        return check_result(c, clause::resolve(l, r, p));
    }
    Err(Reason::PivotMissing)
}

// 17: given clause holds a variable both ways.
#[tactic(auto, unfolding(sheet::specs::Checks::check_one_way, sheet::specs::Reasons::unless))]
fn check_one_way(c: Clause) -> Result<(), Reason>
    ensures { result ≡ check_one_way (literals_of c) }
{
    if clause::both_ways(c) {
        return Err(Reason::SaysNothing);
    }
    Ok(())
}

// 13: rule line beyond the table. 14: given clause differs from its rule line.
#[tactic(auto, unfolding(sheet::specs::Checks::check_given, sheet::specs::Reasons::unless))]
pub fn check_given(edition: Edition, rules: &[u8], line: LineNo, c: Clause) -> Result<(), Reason>
    ensures { result ≡ check_given edition rules.now line.0 (literals_of c) }
{
    if line.index() < lines::line_count(edition, rules) {
        if clause::same(c, lines::line_at(edition, rules, line)) {
            return check_one_way(c);
        }
        return Err(Reason::LineDiffers);
    }
    Err(Reason::NoLine)
}
