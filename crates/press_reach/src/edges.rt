// At a step with pivot p whose set is S: which edge is cut.
ghost use Rattle.std.specs.Prelude.{◌≡◌};
ghost use Rattle.clause.specs.Denote.{literals_of};
ghost use Rattle.press_spec.specs.Recycle.{cut_of};
ghost use Rattle.press_nodes.specs.Fates.{cut_in};

use clause::Clause;
use press_nodes::fate::Side;

// "If -p is in S, the left edge is cut ..; else if +p is in S, the right edge is cut .."
#[tactic(auto, unfolding(press_nodes::specs::Fates::cut_in, press_spec::specs::Recycle::cut_of, clause::specs::Clauses::holds))]
pub fn cut_of(p: u8, s: Clause) -> Option<Side>
    ensures { cut_in result ≡ cut_of p (literals_of s) }
{
    if clause::has(s.negative, p) {
        return Some(Side::Left);
    }
    if clause::has(s.positive, p) {
        return Some(Side::Right);
    }
    None
}
