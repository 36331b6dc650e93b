// What a node's set S becomes when a set is handed to it.
ghost use Rattle.std.specs.Prelude.{◌≡◌};
ghost use Rattle.clause.specs.Denote.{literals_of};
ghost use Rattle.press_spec.specs.Recycle.{unreached, reset, intersect, fit_of};
ghost use Rattle.press_reach.specs.Reaches.{reach_in};

use clause::Clause;
use press_spec::Recycling;

// "A node with two or more uses has S empty. Otherwise S comes from its only use."
#[tactic(auto, unfolding(press_spec::specs::Recycle::reset))]
fn reset(uses: u16, s: Clause) -> Clause
    ensures { literals_of result ≡ reset (λ m. uses) 0 unreached (literals_of s) }
{
    if uses < 2 {
        return s;
    }
    clause::nothing()
}

// "A node's S is the intersection over all its uncut edges from reached steps of what each would hand it" (003).
#[tactic(auto, unfolding(press_spec::specs::Recycle::intersect, crate::specs::Reaches::reach_in))]
fn intersect(before: Option<Clause>, s: Clause) -> Clause
    ensures { literals_of result ≡ intersect 0 (reach_in before) (literals_of s) }
{
    match before {
        None => s,
        Some(had) => clause::common(had, s),
    }
}

// The set of a node that has so many uses and is handed s, as the plan chooses: by a match and no closure, since a plan names one of the two, and
// `fit_of` goes by the same cases.
#[tactic(auto, unfolding(press_spec::specs::Recycle::fit_of, press_spec::specs::Recycle::reset))]
pub fn fitted(how: Recycling, uses: u16, before: Option<Clause>, s: Clause) -> Clause
    ensures { literals_of result ≡ fit_of how (λ m. uses) 0 (reach_in before) (literals_of s) }
{
    match how {
        Recycling::Reset => reset(uses, s),
        Recycling::Intersection => intersect(before, s),
    }
}
