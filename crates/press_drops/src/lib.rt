// 6. Drops: "Right after the record that uses a node last comes its drop; two drops go by rising number in the pressed sheet. The sink is
// never dropped."
#![tactic(auto)]

ghost use Rattle.std.specs.Prelude.{◌≡◌, ◌<◌, length};
ghost use Rattle.press_spec.specs.Drops.{with_drops};
ghost use Rattle.press_nodes.specs.Tables.{links_in, nodes_in, Nodes};
ghost use Rattle.press_nodes.specs.Numbers.{numbers_in};
ghost use Rattle.press_last.specs.LastUses.{last_uses, drop_by};
ghost use Rattle.press_emit.specs.Emission.{emission_of, emitted_by, unwritten, emit_all, Roomy};
ghost use Rattle.press_drops.specs.Turns.{records_at};

use clause::Clause;
use press_emit::{Emitted, Emitter};
use press_nodes::link::Link;
use press_nodes::{link, node};
use sheet::edition::Edition;
use sheet::limits::CAPACITY;
use sheet::{NodeNo, Record};

// The nodes in their order, and where each is used last.
#[derive(Clone, Copy)]
struct Ordered<'a> {
    links: &'a [Link],
    clauses: &'a [Clause],
    last: &'a [Option<NodeNo>],
}

impl Ordered<'_> {
    // The drop of n, which node k names, unless a later node names it.
    #[tactic(auto, unfolding(sheet::specs::Denote::record_of, press_last::specs::LastUses::drop_by, press_emit::specs::Emission::emit_all))]
    fn emit_last(&self, k: NodeNo, n: NodeNo, emitter: &mut Emitter)
        requires n_in_bounds { n.0 < length self.now.last.now }
        requires roomy { Roomy (drop_by (numbers_in self.now.last.now) k.0 n.0) (emitted_by emitter.old) }
        ensures written { emitted_by emitter.new ≡ emit_all (drop_by (numbers_in self.now.last.now) k.0 n.0) (emitted_by emitter.old) }
        ensures same_reference { emitter.new.out.ghost_name ≡ emitter.old.out.ghost_name }
    {
        if !press_last::used_after(self.last, k, n) {
            emitter.emit_record(Record::Drop(n));
        }
    }

    // Node k, and the drops of what it names last: two of them by rising number.
    fn emit_turn(&self, k: NodeNo, emitter: &mut Emitter)
        requires nodes { Nodes self.now.links.now self.now.clauses.now }
        requires k_in_bounds { (k.0 < length self.now.links.now) × (numbers_in self.now.last.now ≡ last_uses (links_in self.now.links.now)) }
        requires roomy { Roomy (records_at (nodes_in self.now.links.now self.now.clauses.now) k.0) (emitted_by emitter.old) }
        ensures written { emitted_by emitter.new ≡ emit_all (records_at (nodes_in self.now.links.now self.now.clauses.now) k.0) (emitted_by emitter.old) }
        ensures same_reference { emitter.new.out.ghost_name ≡ emitter.old.out.ghost_name }
    {
        let record = node::node_at(self.links, self.clauses, k);
        emitter.emit_record(record);
        let Link::Join { left, right, .. } = link::link_at(self.links, k) else {
            return;
        };
        let low = left.min(right);
        let high = left.max(right);
        self.emit_last(k, low, emitter);
        if left != right {
            self.emit_last(k, high, emitter);
        }
    }
}

// Every node in order, with the drops after it.
pub fn emit_records(edition: Edition, links: &[Link], clauses: &[Clause], out: &mut [u8]) -> Emitted
    requires nodes { Nodes links.now clauses.now }
    requires roomy { Roomy (with_drops (nodes_in links.now clauses.now)) (unwritten edition out.old) }
    ensures { emission_of out.new result ≡ emit_all (with_drops (nodes_in links.now clauses.now)) (unwritten edition out.old) }
{
    let n = links.len();
    let mut last = [None; CAPACITY];
    press_last::last_uses(links, &mut last[..n]);
    let ordered = Ordered {
        links,
        clauses,
        last: &last[..n],
    };
    let mut emitter = Emitter {
        out,
        emitted: Emitted {
            edition,
            records: 0,
            tally: tally::nothing(),
        },
    };
    for k in 0..n {
        ordered.emit_turn(NodeNo(k as u16), &mut emitter);
    }
    emitter.emitted
}
