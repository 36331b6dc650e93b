// 3. Rebuild, "rising numbers, reached nodes only. A given node stands for itself. A cut step is replaced by its kept parent's stand-in."
#![tactic(auto)]

ghost use Rattle.std.specs.Prelude.{◌≡◌, ◌<◌, length, set, get_or};
ghost use Rattle.clause.specs.Clauses.{none};
ghost use Rattle.clause.specs.Denote.{literals_of};
ghost use Rattle.sheet.specs.Records.{step, node_at};
ghost use Rattle.press_spec.specs.Links.{link_at};
ghost use Rattle.press_spec.specs.Recycle.{kept};
ghost use Rattle.press_spec.specs.Rebuild.{built, way_of, renew, rebuild_turn, rebuild};
ghost use Rattle.press_nodes.specs.Tables.{links_in, nodes_in, Sound, Nodes};
ghost use Rattle.press_nodes.specs.Fates.{cut_in, fates_in};
ghost use Rattle.press_rebuild.specs.Ways.{way_in, StandIns};

use clause::Clause;
use press_nodes::fate::{Fate, Side};
use press_nodes::link::Link;
use press_nodes::{clause_table, fate, link, node};
use sheet::NodeNo;

// What becomes of a step.
#[derive(Clone, Copy)]
pub enum Way {
    TakeLeft,
    TakeRight,
    StepAnew,
}

// "Left stand-in lacks +p, take it; else right lacks -p, take that; else a new step."
#[tactic(auto, unfolding(crate::specs::Ways::way_in, press_spec::specs::Rebuild::way_of, press_nodes::specs::Fates::cut_in, clause::specs::Clauses::holds))]
fn way_of(cut: Option<Side>, p: u8, l: Clause, r: Clause) -> Way
    ensures { way_in result ≡ way_of (cut_in cut) p (literals_of l) (literals_of r) }
{
    match cut {
        Some(Side::Left) => Way::TakeRight,
        Some(Side::Right) => Way::TakeLeft,
        None if !clause::has(l.positive, p) => Way::TakeLeft,
        None if !clause::has(r.negative, p) => Way::TakeRight,
        None => Way::StepAnew,
    }
}

// The stand-in of node n. The table holds numbers, as the list of the definition `built` does.
pub fn stand_in(stand_ins: &[u16], n: NodeNo) -> NodeNo
    requires { n.0 < length stand_ins.now }
    ensures { result.0 ≡ get_or stand_ins.now n.0 0 }
{
    NodeNo(stand_ins[n.index()])
}

// Node n has the stand-in m, from now on.
fn stands_for(stand_ins: &mut [u16], n: NodeNo, m: NodeNo)
    requires { n.0 < length stand_ins.old }
    ensures { stand_ins.new ≡ set stand_ins.old n.0 m.0 }
{
    stand_ins[n.index()] = m.0;
}

// Node n, a step, goes its way. "A new step, which keeps the old one's number, pivot and sides."
fn renew_step(
    links: &mut [Link],
    clauses: &mut [Clause],
    cut: Option<Side>,
    n: NodeNo,
    p: u8,
    l: NodeNo,
    r: NodeNo,
    stand_ins: &mut [u16],
)
    requires clauses_len { (length clauses.old ≡ length links.old) × StandIns (length links.old) stand_ins.old }
    requires n_in_bounds { (n.0 < length links.old) × (l.0 < length links.old) × (r.0 < length links.old) }
    ensures { built (nodes_in links.new clauses.new) stand_ins.new ≡ renew n.0 (step p l.0 r.0 none) (kept (cut_in cut)) (built (nodes_in links.old clauses.old) stand_ins.old) }
{
    let left = stand_in(stand_ins, l);
    let right = stand_in(stand_ins, r);
    let left_clause = clause_table::clause_at(clauses, left);
    let right_clause = clause_table::clause_at(clauses, right);
    match way_of(cut, p, left_clause, right_clause) {
        Way::TakeLeft => stands_for(stand_ins, n, left),
        Way::TakeRight => stands_for(stand_ins, n, right),
        Way::StepAnew => {
            let result = clause::resolve(left_clause, right_clause, p);
            node::put_step(links, clauses, n, p, left, right, result);
            stands_for(stand_ins, n, n);
        }
    }
}

// Node n, which is kept with this cut. It knows nothing of who decided the cut: a pass may decide on its way and call this at once.
#[tactic(auto, unfolding(press_nodes::specs::Tables::link_in))]
pub fn renew_node(
    links: &mut [Link],
    clauses: &mut [Clause],
    cut: Option<Side>,
    n: NodeNo,
    stand_ins: &mut [u16],
)
    requires clauses_len { (length clauses.old ≡ length links.old) × StandIns (length links.old) stand_ins.old }
    requires n_in_bounds { (n.0 < length links.old) × Sound n.0 (link_at (links_in links.old) n.0) }
    ensures { let t = nodes_in links.old clauses.old in built (nodes_in links.new clauses.new) stand_ins.new ≡ renew n.0 (node_at t n.0) (kept (cut_in cut)) (built t stand_ins.old) }
{
    let Link::Join { pivot, left, right } = link::link_at(links, n) else {
        stands_for(stand_ins, n, n);
        return;
    };
    renew_step(links, clauses, cut, n, pivot, left, right, stand_ins);
}

// The turn at node n.
#[tactic(auto, unfolding(press_spec::specs::Rebuild::rebuild_turn, press_spec::specs::Rebuild::renew, press_nodes::specs::Fates::fate_in))]
fn rebuild_turn(
    links: &mut [Link],
    clauses: &mut [Clause],
    fates: &[Fate],
    n: NodeNo,
    stand_ins: &mut [u16],
)
    requires clauses_len { (length clauses.old ≡ length links.old) × StandIns (length links.old) stand_ins.old }
    requires n_in_bounds { (n.0 < length links.old) × Sound n.0 (link_at (links_in links.old) n.0) × (length fates.now ≡ length links.old) }
    ensures { let t = nodes_in links.old clauses.old in built (nodes_in links.new clauses.new) stand_ins.new ≡ rebuild_turn t (fates_in fates.now) n.0 (built t stand_ins.old) }
{
    if let Fate::Kept(cut) = fate::fate_at(fates, n) {
        renew_node(links, clauses, cut, n, stand_ins);
    }
}

pub fn rebuild(links: &mut [Link], clauses: &mut [Clause], fates: &[Fate], stand_ins: &mut [u16])
    requires nodes { Nodes links.old clauses.old }
    requires fates_len { (length fates.now ≡ length links.old) × (length stand_ins.old ≡ length links.old) }
    ensures { built (nodes_in links.new clauses.new) stand_ins.new ≡ rebuild (nodes_in links.old clauses.old) (fates_in fates.now) }
{
    stand_ins.fill(0);
    for i in 0..links.len() as u16 {
        rebuild_turn(links, clauses, fates, NodeNo(i), stand_ins);
    }
}
