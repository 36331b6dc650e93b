// How a turn scores a node: "of the unplaced nodes whose parents are all placed, take the one after which most nodes can be dropped at once".
ghost use Rattle.std.specs.Prelude.{◌≡◌, cond, ℕ, ◌<◌, eqb, length, get_or};
ghost use Rattle.press_spec.specs.Links.{join};
ghost use Rattle.press_spec.specs.TopDown.{gain_by};
ghost use Rattle.press_nodes.specs.Tables.{links_in, Links};
ghost use Rattle.press_nodes.specs.Numbers.{numbers_in};
ghost use Rattle.press_top_down.specs.Scores.{marked, score_in};

use press_nodes::link;
use press_nodes::link::Link;
use sheet::NodeNo;

// The tables that scores are worked out from, with an entry for each node.
#[derive(Clone, Copy)]
pub(crate) struct State<'a> {
    pub(crate) links: &'a [Link],
    // 1 for a node that is unplaced, else 0, as the definition `trim` has it.
    pub(crate) left: &'a [u8],
    // The places in unplaced nodes that name the node.
    pub(crate) ahead: &'a [u16],
    // Its place, once it is placed.
    pub(crate) numbers: &'a [Option<NodeNo>],
}

impl State<'_> {
    #[tactic(auto, unfolding(crate::specs::Scores::marked))]
    fn is_unplaced(&self, n: NodeNo) -> bool
        requires { n.0 < length self.now.left.now }
        ensures { result ≡ marked self.now.left.now n.0 }
    {
        self.left[n.index()] != 0
    }

    fn is_placed(&self, n: NodeNo) -> bool
        requires { n.0 < length self.now.numbers.now }
        ensures { result ≡ marked (numbers_in self.now.numbers.now) n.0 }
    {
        self.numbers[n.index()].is_some()
    }

    // 1 if a node that names n in `own` places is the last that names it, else 0.
    fn freed(&self, n: NodeNo, own: u16) -> u16
        requires { n.0 < length self.now.ahead.now }
        ensures { result ≡ cond (eqb (get_or self.now.ahead.now n.0 0) own) 1 0 }
    {
        u16::from(self.ahead[n.index()] == own)
    }

    // How many "nodes can be dropped at once" after a step of l and r: a parent that is named twice is one node.
    #[tactic(auto, unfolding(press_spec::specs::TopDown::gain_by))]
    fn gain(&self, l: NodeNo, r: NodeNo) -> u16
        requires { (l.0 < length self.now.ahead.now) × (r.0 < length self.now.ahead.now) }
        ensures { (p : ℕ) → result ≡ gain_by (λ m. get_or self.now.ahead.now m 0) (join p l.0 r.0) }
    {
        if l == r {
            return self.freed(l, 2);
        }
        self.freed(l, 1) + self.freed(r, 1)
    }

    // 0 for a node that is placed or has a parent that is not, as the definition has it; else one more than what it gains.
    #[tactic(auto, unfolding(crate::specs::Scores::score_in, crate::specs::Scores::parents_marked))]
    pub(crate) fn score(&self, n: NodeNo) -> u16
        requires links { Links self.now.links.now }
        requires left_len { (length self.now.left.now ≡ length self.now.links.now) × (length self.now.ahead.now ≡ length self.now.links.now) × (length self.now.numbers.now ≡ length self.now.links.now) × (n.0 < length self.now.links.now) }
        ensures { result ≡ score_in (links_in self.now.links.now) self.now.left.now self.now.ahead.now (numbers_in self.now.numbers.now) n.0 }
    {
        if !self.is_unplaced(n) {
            return 0;
        }
        let Link::Join { left, right, .. } = link::link_at(self.links, n) else {
            return 1;
        };
        if !self.is_placed(left) || !self.is_placed(right) {
            return 0;
        }
        self.gain(left, right) + 1
    }
}
