// A node's link in the press's tables: what the node is, without its clause.
ghost use Rattle.std.specs.Prelude.{◌≡◌, ◌<◌, length, set};
ghost use Rattle.press_spec.specs.Links.{leaf, join, link_at};
ghost use Rattle.press_nodes.specs.Tables.{link_in, links_in};

use sheet::{LineNo, NodeNo};

#[derive(Clone, Copy, PartialEq, Eq)]
pub enum Link {
    Leaf(LineNo),
    Join {
        pivot: u8,
        left: NodeNo,
        right: NodeNo,
    },
}

// What stands in a table before a node is stored.
pub const BLANK: Link = Link::Leaf(LineNo(0));

// The link of node n.
#[tactic(auto, using(crate::proofs::Tables::links_at))]
pub fn link_at(links: &[Link], n: NodeNo) -> Link
    requires { n.0 < length links.now }
    ensures { link_in result ≡ link_at (links_in links.now) n.0 }
{
    links[n.index()]
}

// Node n is a given, from now on. A given and a step are stored by two functions, each of which has its own equation.
#[tactic(auto, using(crate::proofs::Tables::links_set), unfolding(crate::specs::Tables::link_in))]
pub fn put_leaf(links: &mut [Link], n: NodeNo, line: LineNo)
    requires { n.0 < length links.old }
    ensures { links_in links.new ≡ set (links_in links.old) n.0 (leaf line.0) }
{
    links[n.index()] = Link::Leaf(line);
}

// Node n is a step, from now on.
#[tactic(auto, using(crate::proofs::Tables::links_set), unfolding(crate::specs::Tables::link_in))]
pub fn put_join(links: &mut [Link], n: NodeNo, pivot: u8, left: NodeNo, right: NodeNo)
    requires { n.0 < length links.old }
    ensures { links_in links.new ≡ set (links_in links.old) n.0 (join pivot left.0 right.0) }
{
    links[n.index()] = Link::Join { pivot, left, right };
}
