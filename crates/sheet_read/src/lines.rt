// The rule table: lines of two sets.
ghost use Rattle.std.specs.Prelude.{◌≡◌, ◌<◌};
ghost use Rattle.clause.specs.Denote.{literals_of};
ghost use Rattle.sheet.specs.Fields.{rule_lines, rule_line};

use clause::Clause;
use sheet::LineNo;
use sheet::edition::Edition;

#[tactic(auto, unfolding(sheet::specs::Fields::rule_lines))]
pub fn line_count(edition: Edition, rules: &[u8]) -> usize
    ensures { result ≡ rule_lines edition rules.now }
{
    edition.lines_in(rules.len())
}

#[tactic(auto, unfolding(sheet::specs::Fields::rule_lines, sheet::specs::Fields::rule_line))]
pub fn line_at(edition: Edition, rules: &[u8], line: LineNo) -> Clause
    requires { line.0 < rule_lines edition rules.now }
    ensures { literals_of result ≡ rule_line edition rules.now line.0 }
{
    crate::clause_at(edition, rules, edition.line_bytes() * line.index())
}
