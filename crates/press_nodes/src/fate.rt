// What becomes of a node: a pass that cuts edges stores it, and the rebuild reads it.
ghost use Rattle.std.specs.Prelude.{◌≡◌, ◌<◌, length, set, Option};
ghost use Rattle.press_nodes.specs.Fates.{fate_in, fates_in};
ghost use Rattle.press_nodes.specs.declared.fate.Fate.TheVariants.{Kept};

use sheet::NodeNo;

// A side of a step, and the edge that leads to the parent there.
#[derive(Clone, Copy, PartialEq, Eq)]
pub enum Side {
    Left,
    Right,
}

// A node is lost, or kept (an `Option` of an `Option` would hide which of its two `None` is which); of a step that is kept one edge may be cut. A pass that walks down the sheet may store `Kept(None)` for a node before
// its cut is known.
#[derive(Clone, Copy, PartialEq, Eq)]
pub enum Fate {
    Lost,
    Kept(Option<Side>),
}

#[tactic(auto, unfolding(crate::specs::Fates::fates_in))]
pub fn fate_at(fates: &[Fate], n: NodeNo) -> Fate
    requires { n.0 < length fates.now }
    ensures { fate_in result ≡ fates_in fates.now n.0 }
{
    fates[n.index()]
}

// Node n is kept with this cut, from now on.
pub fn put_fate(fates: &mut [Fate], n: NodeNo, cut: Option<Side>)
    requires { n.0 < length fates.old }
    ensures { fates.new ≡ set fates.old n.0 (Kept cut) }
{
    fates[n.index()] = Fate::Kept(cut);
}
