// What a step of the replay works on: slots, places in the row, and what is looked for and decided.
#![tactic(auto)]

ghost use Rattle.std.specs.Prelude.{◌≡◌};
ghost use Rattle.clause.specs.Denote.{literals_of};
ghost use Rattle.replay_spec.specs.Slots.{slot, empty, holding, slot_in, into};
ghost use Rattle.replay_slots.specs.Said.{slot_of, place_of, sought_of};
ghost use Rattle.replay_slots.specs.Looks.{is_sought, passed, index_in};

use clause::Clause;
use sheet::{NodeNo, Refusal, SlotNo};
use tally::Tally;

// A slot of the row: a mark of use (not zero: in use), a node's number, and its clause's two sets. A free slot is all zero. Each of its
// 40 bytes belongs to a field, so that zero fields are zero bytes; `in_use` and `holds` alone know that a node's number is wider here.
#[repr(C)]
#[derive(Clone, Copy)]
pub struct Slot {
    pub used: u32,
    pub node: u32,
    pub clause: Clause,
}

// Why one record is not taken: it is refused, or lent with what no replay within its limit has.
#[derive(Clone, Copy, PartialEq, Eq)]
pub enum Untaken {
    Refused(Refusal),
    Unfit,
}

// What is looked for in the row: nothing, a free slot, or the one that holds a node: three cases, as the definition `Sought` has them.
#[derive(Clone, Copy)]
pub enum Sought {
    Nothing,
    Free,
    Node(NodeNo),
}

// A place in the row, with the slot that is found there or put there. Nowhere is no place.
#[derive(Clone, Copy)]
pub struct Place {
    pub at: SlotNo,
    pub slot: Slot,
}

// What a record that is taken comes to: the tally after it, and where a slot is put.
#[derive(Clone, Copy)]
pub struct Taken {
    pub tally: Tally,
    pub place: Option<Place>,
}

pub fn empty() -> Slot
    ensures { slot_of result ≡ empty }
{
    Slot {
        used: 0,
        node: 0,
        clause: clause::nothing(),
    }
}

// A slot that holds a node.
pub fn in_use(node: NodeNo, clause: Clause) -> Slot
    ensures { slot_of result ≡ slot 1 node.0 (literals_of clause) }
{
    Slot {
        used: 1,
        node: u32::from(node.0),
        clause,
    }
}

#[tactic(auto, unfolding(replay_spec::specs::Slots::holding))]
fn holds(s: Slot, n: NodeNo) -> bool
    ensures { result ≡ holding n.0 (slot_of s) }
{
    s.used != 0 && s.node == u32::from(n.0)
}

// Whether a slot is the one sought.
#[tactic(auto, unfolding(crate::specs::Looks::is_sought, replay_spec::specs::Slots::free))]
pub fn is_sought(s: Slot, sought: Sought) -> bool
    ensures { result ≡ is_sought (sought_of sought) (slot_of s) }
{
    match sought {
        Sought::Nothing => false,
        Sought::Free => s.used == 0,
        Sought::Node(n) => holds(s, n),
    }
}

// How many of the row's slots are passed in a look that ends nowhere: where nothing is sought, none.
#[tactic(auto, unfolding(crate::specs::Looks::passed))]
pub fn passed(sought: Sought, slots: usize) -> usize
    ensures { result ≡ passed (sought_of sought) slots }
{
    match sought {
        Sought::Nothing => 0,
        Sought::Free | Sought::Node(_) => slots,
    }
}

// The same place with another slot.
#[tactic(auto, unfolding(replay_spec::specs::Slots::into))]
pub fn into(slot: Slot, place: Option<Place>) -> Option<Place>
    ensures { place_of result ≡ into (slot_of slot) (place_of place) }
{
    place.map(|p| Place { at: p.at, slot })
}

// Nowhere nothing is held.
#[tactic(auto, unfolding(replay_spec::specs::Slots::slot_in))]
pub fn slot_in(place: Option<Place>) -> Slot
    ensures { slot_of result ≡ slot_in (place_of place) }
{
    place.map_or(empty(), |p| p.slot)
}

// The place's index in a row of so many slots; nowhere is past it.
#[tactic(auto, unfolding(crate::specs::Looks::index_in))]
pub fn index_in(place: Option<Place>, slots: usize) -> usize
    ensures { result ≡ index_in (place_of place) slots }
{
    place.map_or(slots, |p| p.at.index())
}
