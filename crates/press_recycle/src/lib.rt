// 2. Recycle pivots (000, algorithm 3): "From the sink down by number, each reached node has a set S. The sink is reached, and so is each
// parent on an uncut edge of a reached step." The sink's S is its clause.
#![tactic(auto)]

ghost use Rattle.std.specs.Prelude.{◌≡◌, ℕ, suc, ◌<◌, length, get_or, set, None};
ghost use Rattle.clause.specs.Denote.{width, literals_of};
ghost use Rattle.press_spec.specs.Links.{sink};
ghost use Rattle.press_spec.specs.Recycle.{fit_of, hand, hand_on, recycle_turn, recycle};
ghost use Rattle.press_spec.specs.Recycle as recycling;
ghost use Rattle.press_nodes.specs.Tables.{links_in, Links};
ghost use Rattle.press_nodes.specs.Fates.{cut_in, fates_in};
ghost use Rattle.press_nodes.specs.declared.fate.Fate.TheVariants.{Lost, Kept};
ghost use Rattle.press_reach.specs.Reaches.{reaches_in};
ghost use Rattle.press_recycle.specs.Passes.{count_in, Fated};

use clause::Clause;
use press_nodes::fate::{Fate, Side};
use press_nodes::link::Link;
use press_nodes::{fate, link};
use press_reach::literal::Literal;
use press_reach::{edges, fit, literal};
use press_spec::Recycling;
use sheet::NodeNo;

// What the turns only read: the recycling that is chosen, and the link and the uses of each node.
#[derive(Clone, Copy)]
struct Turns<'a> {
    how: Recycling,
    links: &'a [Link],
    uses: &'a [u16],
}

impl Turns<'_> {
    fn hand(&self, n: NodeNo, s: Clause, fates: &mut [Fate], sets: &mut [Clause])
        requires { (length fates.old ≡ length self.now.uses.now) × (length sets.old ≡ length self.now.uses.now) × (n.0 < length self.now.uses.now) }
        ensures reaches { reaches_in fates.new sets.new ≡ hand (fit_of self.now.how (count_in self.now.uses.now)) n.0 (literals_of s) (reaches_in fates.old sets.old) }
        ensures fates { fates.new ≡ set fates.old n.0 (Kept None) }
    {
        let i = n.index();
        let before = press_reach::reach_at(fates, sets, n);
        let next = fit::fitted(self.how, self.uses[i], before, s);
        press_reach::put_reach(fates, sets, n, next);
    }

    // "The left edge is cut and the right parent gets S; .. the right edge is cut and the left parent gets S; else left gets S with +p, right
    // gets S with -p."
    #[tactic(auto, unfolding(press_nodes::specs::Fates::cut_in, press_spec::specs::Recycle::hand_on, press_reach::specs::Literals::literal_in))]
    fn hand_on(
        &self,
        cut: Option<Side>,
        p: u8,
        l: NodeNo,
        r: NodeNo,
        s: Clause,
        fates: &mut [Fate],
        sets: &mut [Clause],
    )
        requires fates_len { (length fates.old ≡ length self.now.uses.now) × (length sets.old ≡ length self.now.uses.now) }
        requires p_lt_width { (p < width) × (l.0 < length self.now.uses.now) × (r.0 < length self.now.uses.now) }
        ensures reaches { reaches_in fates.new sets.new ≡ hand_on (fit_of self.now.how (count_in self.now.uses.now)) (cut_in cut) p l.0 r.0 (literals_of s) (reaches_in fates.old sets.old) }
        ensures fates { (m : ℕ) → l.0 < m → r.0 < m → get_or fates.new m Lost ≡ get_or fates.old m Lost }
    {
        match cut {
            Some(Side::Left) => self.hand(r, s, fates, sets),
            Some(Side::Right) => self.hand(l, s, fates, sets),
            None => {
                let plus = Literal::Plus(p);
                let minus = Literal::Minus(p);
                self.hand(l, literal::adding(plus, s), fates, sets);
                self.hand(r, literal::adding(minus, s), fates, sets);
            }
        }
    }

    // The turn at node n, whose set is final: its fate is stored, and its parents are handed theirs.
    fn turn(&self, n: NodeNo, fates: &mut [Fate], sets: &mut [Clause])
        requires links { Links self.now.links.now }
        requires uses_len { (length self.now.uses.now ≡ length self.now.links.now) × (length fates.old ≡ length self.now.links.now) × (length sets.old ≡ length self.now.links.now) × (n.0 < length self.now.links.now) }
        requires fated_2 { Fated (links_in self.now.links.now) fates.old sets.old (suc n.0) }
        ensures reaches { reaches_in fates.new sets.new ≡ recycle_turn (fit_of self.now.how (count_in self.now.uses.now)) (links_in self.now.links.now) n.0 (reaches_in fates.old sets.old) }
        ensures fated { Fated (links_in self.now.links.now) fates.new sets.new n.0 }
    {
        let Some(s) = press_reach::reach_at(fates, sets, n) else {
            return;
        };
        let Link::Join { pivot, left, right } = link::link_at(self.links, n) else {
            fate::put_fate(fates, n, None);
            return;
        };
        let cut = edges::cut_of(pivot, s);
        fate::put_fate(fates, n, cut);
        self.hand_on(cut, pivot, left, right, s, fates, sets);
    }
}

// What becomes of each node by the recycling `how`, where `own` is the sink's clause. The sets S stand in `sets`, and what it held before never matters.
pub fn recycle(
    how: Recycling,
    links: &[Link],
    own: Clause,
    uses: &[u16],
    fates: &mut [Fate],
    sets: &mut [Clause],
)
    requires links { Links links.now }
    requires uses_len { (length uses.now ≡ length links.now) × (length fates.old ≡ length links.now) × (length sets.old ≡ length links.now) × (0 < length links.now) }
    ensures { let t = links_in links.now in fates_in fates.new ≡ recycling.fates t (recycle (fit_of how (count_in uses.now)) (literals_of own) t (sink t)) }
{
    let n = links.len() as u16;
    press_reach::reach_only(fates, sets, NodeNo(n - 1), own);
    let turns = Turns { how, links, uses };
    for i in (0..n).rev() {
        turns.turn(NodeNo(i), fates, sets);
    }
}
