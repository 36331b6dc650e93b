// "Rising numbers, rebuilding on the way, with a set D, empty at first."
ghost use Rattle.std.specs.Prelude.{◌≡◌, ◌<◌, length};
ghost use Rattle.clause.specs.Denote.{literals_of};
ghost use Rattle.sheet.specs.Records.{node_at};
ghost use Rattle.press_spec.specs.Links.{link_at};
ghost use Rattle.press_spec.specs.Rebuild.{built, renew};
ghost use Rattle.press_spec.specs.Lower.{lowered_ones, low_at, fates_by};
ghost use Rattle.press_spec.specs.Univalents.{risen_to, rise_turn, risen_by};
ghost use Rattle.press_nodes.specs.Tables.{links_in, nodes_in, Sound, Nodes};
ghost use Rattle.press_rebuild.specs.Ways.{StandIns};
ghost use Rattle.press_lowered.specs.Table.{low_in};
ghost use Rattle.press_used.specs.Table.{use_at};

use crate::weigh;
use clause::Clause;
use press_lowered::edge;
use press_nodes::link::Link;
use press_reach::literal::Literal;
use press_used::table::Used;
use sheet::NodeNo;

// Node n is rebuilt, if it is kept, by what is lowered so far: its parents have been decided on.
#[tactic(auto, unfolding(press_spec::specs::Lower::fates_by, press_spec::specs::Lower::fate_by, press_spec::specs::Rebuild::renew))]
fn renew_turn(
    links: &mut [Link],
    clauses: &mut [Clause],
    kept: &[u8],
    low: &[Option<Literal>],
    n: NodeNo,
    stand_ins: &mut [u16],
)
    requires clauses_len { (length clauses.old ≡ length links.old) × StandIns (length links.old) stand_ins.old }
    requires n_in_bounds { (n.0 < length links.old) × Sound n.0 (link_at (links_in links.old) n.0) × (length kept.now ≡ length links.old) × (length low.now ≡ length links.old) }
    ensures { let t = nodes_in links.old clauses.old in built (nodes_in links.new clauses.new) stand_ins.new ≡ renew n.0 (node_at t n.0) (fates_by kept.now (low_at (low_in low.now)) (links_in links.old) n.0) (built t stand_ins.old) }
{
    let i = n.index();
    if kept[i] == 0 {
        return;
    }
    let cut = edge::cut_of(links, low, n);
    press_rebuild::renew_node(links, clauses, cut, n, stand_ins);
}

// The turn at node n, where `owed` is D: what D is then.
fn rise_turn(
    links: &mut [Link],
    clauses: &mut [Clause],
    kept: &[u8],
    used: &[Used],
    n: NodeNo,
    low: &mut [Option<Literal>],
    stand_ins: &mut [u16],
    owed: Clause,
) -> Clause
    requires clauses_len { (length clauses.old ≡ length links.old) × StandIns (length links.old) stand_ins.old }
    requires n_in_bounds { (n.0 < length links.old) × Sound n.0 (link_at (links_in links.old) n.0) × (length kept.now ≡ length links.old) × (length used.now ≡ length links.old) × (length low.old ≡ length links.old) }
    ensures { let t = nodes_in links.old clauses.old in risen_to (built (nodes_in links.new clauses.new) stand_ins.new) (lowered_ones (low_in low.new) (literals_of result)) ≡ rise_turn kept.now t (use_at used.now) n.0 (risen_to (built t stand_ins.old) (lowered_ones (low_in low.old) (literals_of owed))) }
{
    renew_turn(links, clauses, kept, low, n, stand_ins);
    weigh::weigh_turn(clauses, used, stand_ins, n, low, owed)
}

// Which nodes are lowered, where these are kept and used so; the rest is rebuilt.
pub fn rise(
    links: &mut [Link],
    clauses: &mut [Clause],
    kept: &[u8],
    used: &[Used],
    low: &mut [Option<Literal>],
    stand_ins: &mut [u16],
)
    requires nodes { Nodes links.old clauses.old }
    requires kept_len { (length kept.now ≡ length links.old) × (length used.now ≡ length links.old) × (length low.old ≡ length links.old) × (length stand_ins.old ≡ length links.old) }
    ensures low { low_in low.new ≡ (risen_by kept.now (use_at used.now) (nodes_in links.old clauses.old)).ones.low }
    ensures built { built (nodes_in links.new clauses.new) stand_ins.new ≡ (risen_by kept.now (use_at used.now) (nodes_in links.old clauses.old)).so }
{
    low.fill(None);
    stand_ins.fill(0);
    let mut owed = clause::nothing();
    for i in 0..links.len() as u16 {
        owed = rise_turn(links, clauses, kept, used, NodeNo(i), low, stand_ins, owed);
    }
}
