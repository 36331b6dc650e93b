// Reading a clause, and what it is read from: sets (sets.rt) and the lines of a rule table (lines.rt).
#![tactic(auto)]

ghost use Rattle.std.specs.Prelude.{◌≡◌, ◌+◌, ◌≤◌, length};
ghost use Rattle.clause.specs.Denote.{literals_of};
ghost use Rattle.sheet.specs.Editions.{line_bytes};
ghost use Rattle.sheet.specs.Fields.{clause_at};

use clause::Clause;
use sheet::edition::Edition;

pub mod lines;
pub mod sets;

// Two sets, one after the other, as in a rule line.
#[tactic(auto, unfolding(sheet::specs::Fields::clause_at))]
pub fn clause_at(edition: Edition, b: &[u8], at: usize) -> Clause
    requires { at + line_bytes edition ≤ length b.now }
    ensures { literals_of result ≡ clause_at edition b.now at }
{
    Clause {
        positive: sets::set_at(edition, b, at),
        negative: sets::set_at(edition, b, at + edition.set_bytes()),
    }
}
