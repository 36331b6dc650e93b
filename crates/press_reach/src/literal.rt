// Literals, each a value of its own.
ghost use Rattle.std.specs.Prelude.{◌≡◌};
ghost use Rattle.clause.specs.Clauses.{none, holds, adding, lacking, alike};
ghost use Rattle.clause.specs.Denote.{literals_of};
ghost use Rattle.press_spec.specs.Lower.{opposite};
ghost use Rattle.press_reach.specs.Literals.{literal_in, Narrow};

use clause::Clause;

#[derive(Clone, Copy, PartialEq, Eq)]
pub enum Literal {
    Plus(u8),
    Minus(u8),
}

#[tactic(auto, unfolding(crate::specs::Literals::literal_in, press_spec::specs::Lower::opposite))]
pub fn opposite(l: Literal) -> Literal
    ensures { literal_in result ≡ opposite (literal_in l) }
{
    match l {
        Literal::Plus(v) => Literal::Minus(v),
        Literal::Minus(v) => Literal::Plus(v),
    }
}

// Whether c holds l.
#[tactic(auto, unfolding(crate::specs::Literals::literal_in, clause::specs::Clauses::holds))]
pub fn holds(l: Literal, c: Clause) -> bool
    ensures { result ≡ holds (literal_in l) (literals_of c) }
{
    match l {
        Literal::Plus(v) => clause::has(c.positive, v),
        Literal::Minus(v) => clause::has(c.negative, v),
    }
}

// c with l.
#[tactic(auto, unfolding(crate::specs::Literals::literal_in, clause::specs::Clauses::adding, clause::specs::Sets::with_below))]
pub fn adding(l: Literal, c: Clause) -> Clause
    requires { Narrow (literal_in l) }
    ensures { literals_of result ≡ adding (literal_in l) (literals_of c) }
{
    match l {
        Literal::Plus(v) => Clause {
            positive: clause::with(c.positive, v),
            ..c
        },
        Literal::Minus(v) => Clause {
            negative: clause::with(c.negative, v),
            ..c
        },
    }
}

// c without l.
#[tactic(auto, unfolding(crate::specs::Literals::literal_in, clause::specs::Clauses::lacking))]
pub fn lacking(l: Literal, c: Clause) -> Clause
    ensures { literals_of result ≡ lacking (literal_in l) (literals_of c) }
{
    match l {
        Literal::Plus(v) => Clause {
            positive: clause::without(c.positive, v),
            ..c
        },
        Literal::Minus(v) => Clause {
            negative: clause::without(c.negative, v),
            ..c
        },
    }
}

// Whether l is all that c holds.
pub fn is_only(l: Literal, c: Clause) -> bool
    requires { Narrow (literal_in l) }
    ensures { result ≡ alike (literals_of c) (adding (literal_in l) none) }
{
    let only = adding(l, clause::nothing());
    clause::same(c, only)
}
