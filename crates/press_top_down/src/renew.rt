// The scores are kept in a table, and a turn works out anew only those that it can change: of the node that it takes, of the steps that name it, and of
// those that name a parent of it that 2 places or fewer still name. That parent loses a place each time, so the steps of a node are gone through a few
// times only, and all turns together take time in proportion to the nodes.
ghost use Rattle.std.specs.Prelude.{◌≡◌, ℕ, suc, ◌≤◌, ◌<◌, length, get_or};
ghost use Rattle.press_spec.specs.Links.{link_at};
ghost use Rattle.press_nodes.specs.Tables.{links_in};
ghost use Rattle.press_users.specs.Chains.{parent_on};
ghost use Rattle.press_scores.specs.Rows.{scores_in};
ghost use Rattle.press_top_down.specs.Renewed.{Standing, score_of, ChainsOf, Users, Scored, Renewed, Names, Touched};

use crate::score::State;
use press_nodes::fate::Side;
use press_nodes::link;
use press_nodes::link::Link;
use sheet::NodeNo;

// The steps that name each node on one side, in chains, as `press_users` makes them.
#[derive(Clone, Copy)]
pub(crate) struct Chains<'a> {
    pub(crate) side: Side,
    pub(crate) heads: &'a [Option<NodeNo>],
    pub(crate) nexts: &'a [Option<NodeNo>],
}

#[derive(Clone, Copy)]
pub(crate) struct Sides<'a> {
    pub(crate) left: Chains<'a>,
    pub(crate) right: Chains<'a>,
}

impl State<'_> {
    // The score of one node.
    fn renew(&self, n: NodeNo, rows: &mut [u64])
        requires tables { Standing self.now rows.old }
        requires n_in_bounds { n.0 < length self.now.links.now }
        ensures { Renewed (score_of self.now) (λ m. m ≡ n.0) rows.old rows.new }
    {
        press_scores::put_score(rows, n, self.score(n));
    }

    // The scores of the steps that have q for their parent on the side of these chains.
    fn renew_chain(&self, chains: &Chains, q: NodeNo, rows: &mut [u64])
        requires tables { Standing self.now rows.old }
        requires chains { ChainsOf self.now.links.now chains.now }
        requires q_in_bounds { q.0 < length self.now.links.now }
        ensures { Renewed (score_of self.now) (λ m. parent_on chains.now.side (link_at (links_in self.now.links.now) m) ≡ suc q.0) rows.old rows.new }
    {
        let mut user = chains.heads[q.index()];
        while let Some(n) = user {
            self.renew(n, rows);
            user = chains.nexts[n.index()];
        }
    }

    // The scores of the steps that name q.
    fn renew_users(&self, users: &Sides, q: NodeNo, rows: &mut [u64])
        requires tables { Standing self.now rows.old }
        requires users { Users self.now.links.now users.now }
        requires q_in_bounds { q.0 < length self.now.links.now }
        ensures { Renewed (score_of self.now) (Names (links_in self.now.links.now) q.0) rows.old rows.new }
    {
        self.renew_chain(&users.left, q, rows);
        self.renew_chain(&users.right, q, rows);
    }

    // The scores of the steps that name q, unless 3 places or more do: then none of them gains by q, now as before.
    fn renew_sharers(&self, users: &Sides, q: NodeNo, rows: &mut [u64])
        requires tables { Standing self.now rows.old }
        requires users { Users self.now.links.now users.now }
        requires q_in_bounds { q.0 < length self.now.links.now }
        ensures { Renewed (score_of self.now) (λ m. (get_or self.now.ahead.now q.0 0 ≤ 2) × Names (links_in self.now.links.now) q.0 m) rows.old rows.new }
    {
        if self.ahead[q.index()] <= 2 {
            self.renew_users(users, q, rows);
        }
    }

    // The scores that taking node n, which is placed now, can change.
    pub(crate) fn renew_touched(&self, users: &Sides, n: NodeNo, rows: &mut [u64])
        requires tables { Standing self.now rows.old }
        requires users { Users self.now.links.now users.now }
        requires n_in_bounds { n.0 < length self.now.links.now }
        ensures { Renewed (score_of self.now) (Touched (links_in self.now.links.now) self.now.ahead.now n.0) rows.old rows.new }
    {
        self.renew(n, rows);
        self.renew_users(users, n, rows);
        if let Link::Join { left, right, .. } = link::link_at(self.links, n) {
            self.renew_sharers(users, left, rows);
            self.renew_sharers(users, right, rows);
        }
    }

    // The scores of all nodes, in a table that has none yet.
    pub(crate) fn renew_all(&self, rows: &mut [u64])
        requires tables { Standing self.now rows.old }
        requires by_index { (m : ℕ) → scores_in rows.old m ≡ 0 }
        ensures { (m : ℕ) → Scored (score_of self.now) rows.new m }
    {
        for i in 0..self.links.len() {
            self.renew(NodeNo(i as u16), rows);
        }
    }
}
