// "A single literal": what a clause of one literal is lowered with.
ghost use Rattle.std.specs.Prelude.{◌≡◌, ◌≤◌};
ghost use Rattle.clause.specs.Denote.{width, literals_of};
ghost use Rattle.press_spec.specs.Lower.{single};
ghost use Rattle.press_lowered.specs.Table.{lowered_in};

use clause::Clause;
use press_reach::literal;
use press_reach::literal::Literal;

// The only literal of c, of so many variables, if it has just one.
#[tactic(auto, unfolding(crate::specs::Table::lowered_in, press_reach::specs::Literals::literal_in, press_spec::specs::Lower::single))]
pub fn single(variables: u8, c: Clause) -> Option<Literal>
    requires { variables ≤ width }
    ensures { lowered_in result ≡ single variables (literals_of c) }
{
    for v in (0..variables).rev() {
        let plus = Literal::Plus(v);
        if literal::is_only(plus, c) {
            return Some(plus);
        }
        let minus = Literal::Minus(v);
        if literal::is_only(minus, c) {
            return Some(minus);
        }
    }
    None
}
