// Which nodes are lowered, and with which literal.
ghost use Rattle.std.specs.Prelude.{◌≡◌, ◌<◌, length, set};
ghost use Rattle.press_spec.specs.Lower.{lowered, low_at, is_lowered};
ghost use Rattle.press_reach.specs.Literals.{literal_in};
ghost use Rattle.press_lowered.specs.Table.{lowered_in, low_in};

use press_reach::literal::Literal;
use sheet::NodeNo;

// The literal that node n is lowered with, if it is.
#[tactic(auto, using(crate::proofs::Tabled::low_found))]
pub fn lowered_at(low: &[Option<Literal>], n: NodeNo) -> Option<Literal>
    requires { n.0 < length low.now }
    ensures { lowered_in result ≡ low_at (low_in low.now) n.0 }
{
    low[n.index()]
}

#[tactic(auto, unfolding(press_spec::specs::Lower::is_lowered, crate::specs::Table::lowered_in))]
pub fn is_lowered(low: &[Option<Literal>], n: NodeNo) -> bool
    requires { n.0 < length low.now }
    ensures { result ≡ is_lowered (low_at (low_in low.now) n.0) }
{
    lowered_at(low, n).is_some()
}

// Node n is lowered with l, from now on.
#[tactic(auto, using(crate::proofs::Tabled::low_set), unfolding(crate::specs::Table::lowered_in))]
pub fn put_lowered(low: &mut [Option<Literal>], n: NodeNo, l: Literal)
    requires { n.0 < length low.old }
    ensures { low_in low.new ≡ set (low_in low.old) n.0 (lowered (literal_in l)) }
{
    low[n.index()] = Some(l);
}
