// The lent row of slots: looked through, put into, freed and cleared here, and nowhere else.
#![tactic(auto)]

ghost use Rattle.std.specs.Prelude.{◌≡◌, set, get_or};
ghost use Rattle.replay_spec.specs.Slots.{empty, put, look, cleared};
ghost use Rattle.replay_slots.specs.Said.{slot_of, row_of, place_of, sought_of};

use replay_slots::{Place, Slot, Sought};
use sheet::SlotNo;

// The first slot that is the one sought.
pub fn find(slots: &[Slot], sought: Sought) -> Option<Place>
    ensures { place_of result ≡ look (sought_of sought) (row_of slots.now) }
{
    let n = replay_slots::passed(sought, slots.len());
    for (i, slot) in slots[..n].iter().enumerate() {
        if replay_slots::is_sought(*slot, sought) {
            return Some(Place {
                at: SlotNo(i),
                slot: *slot,
            });
        }
    }
    None
}

// What a slot holds; past the row, an empty one.
pub fn slot_at(slots: &[Slot], at: SlotNo) -> Slot
    ensures { slot_of result ≡ get_or (row_of slots.now) at.0 empty }
{
    slots
        .get(at.index())
        .copied()
        .unwrap_or(replay_slots::empty())
}

// A slot is overwritten whole; nowhere nothing is.
pub fn put(slots: &mut [Slot], place: Option<Place>)
    ensures { row_of slots.new ≡ put (place_of place) (row_of slots.old) }
{
    let i = replay_slots::index_in(place, slots.len());
    if i < slots.len() {
        slots[i] = replay_slots::slot_in(place);
    }
}

// A freed slot is all zero.
pub fn free(slots: &mut [Slot], at: SlotNo)
    ensures { row_of slots.new ≡ set (row_of slots.old) at.0 empty }
{
    put(
        slots,
        Some(Place {
            at,
            slot: replay_slots::empty(),
        }),
    );
}

// Every slot freed.
pub fn clear(slots: &mut [Slot])
    ensures { row_of slots.new ≡ cleared (row_of slots.old) }
{
    for at in 0..slots.len() {
        free(slots, SlotNo(at));
    }
}
