// What a record's bytes read as, and what is looked for in the row for it: no more than the record needs.
#![tactic(auto)]

ghost use Rattle.std.specs.Prelude.{◌≡◌, ◌≤◌, true, length};
ghost use Rattle.sheet.specs.Editions.{record_bytes};
ghost use Rattle.sheet.specs.Fields.{reading};
ghost use Rattle.sheet.specs.Denote.{reading_of};
ghost use Rattle.replay_slots.specs.Said.{sought_of};
ghost use Rattle.replay_sought.specs.Sought.{left_sought, right_sought, room_sought};

use replay_slots::Sought;
use sheet::edition::Edition;
use sheet::{Reason, Record};

// The record that a replay's bytes are: drops read too.
pub fn read(edition: Edition, bytes: &[u8]) -> Result<Record, Reason>
    requires { record_bytes edition ≤ length bytes.now }
    ensures { reading_of result ≡ reading edition true bytes.now }
{
    sheet_record::read_record(edition, bytes, true)
}

// A step names its left parent, and a drop its node. Left and right are two functions, as the definitions are: a drop is looked for on the left alone.
#[tactic(auto, unfolding(crate::specs::Sought::left_sought, sheet::specs::Denote::reading_of, sheet::specs::Denote::record_of))]
pub fn left_sought(reading: Result<Record, Reason>) -> Sought
    ensures { sought_of result ≡ left_sought (reading_of reading) }
{
    match reading {
        Ok(Record::Step { left, .. }) => Sought::Node(left),
        Ok(Record::Drop(n)) => Sought::Node(n),
        Ok(Record::Given { .. }) | Err(_) => Sought::Nothing,
    }
}

#[tactic(auto, unfolding(crate::specs::Sought::right_sought, sheet::specs::Denote::reading_of, sheet::specs::Denote::record_of))]
pub fn right_sought(reading: Result<Record, Reason>) -> Sought
    ensures { sought_of result ≡ right_sought (reading_of reading) }
{
    match reading {
        Ok(Record::Step { right, .. }) => Sought::Node(right),
        _ => Sought::Nothing,
    }
}

// A node needs a free slot.
#[tactic(auto, unfolding(crate::specs::Sought::room_sought, sheet::specs::Denote::reading_of, sheet::specs::Denote::record_of))]
pub fn room_sought(reading: Result<Record, Reason>) -> Sought
    ensures { sought_of result ≡ room_sought (reading_of reading) }
{
    match reading {
        Ok(Record::Given { .. } | Record::Step { .. }) => Sought::Free,
        Ok(Record::Drop(_)) | Err(_) => Sought::Nothing,
    }
}
