// The edition of a sheet, and what goes by it. The caller names the edition; bytes never decide it.
ghost use Rattle.std.specs.Prelude.{◌≡◌, ◌*◌, ◌/◌, ◌≤◌};
ghost use Rattle.sheet.specs.Editions.{edition_named, variables, set_bytes, record_bytes, line_bytes, press_records, replay_records, most_records};

use crate::{RecordNo, narrow, wide};

#[derive(Clone, Copy, PartialEq, Eq)]
pub enum Edition {
    Narrow,
    Wide,
}

// A number that names no edition.
#[derive(Clone, Copy, PartialEq, Eq)]
pub struct NoEdition(pub u32);

impl TryFrom<u32> for Edition {
    type Error = NoEdition;

    ghost try_from_gives = { λ number r. r ≡ edition_named number };

    #[tactic(auto, unfolding(crate::specs::Editions::edition_named))]
    fn try_from(number: u32) -> Result<Edition, NoEdition> {
        match number {
            0 => Ok(Edition::Narrow),
            1 => Ok(Edition::Wide),
            _ => Err(NoEdition(number)),
        }
    }
}

// The numbers of the two editions stand in two modules of the same names, and not in two values of one struct: lengths of arrays ask for constants, and each
// method has an equation of its own.
impl Edition {
    pub fn variables(self) -> u8
        ensures { result ≡ variables self }
    {
        match self {
            Edition::Narrow => narrow::VARIABLES,
            Edition::Wide => wide::VARIABLES,
        }
    }

    pub fn set_bytes(self) -> usize
        ensures { result ≡ set_bytes self }
    {
        match self {
            Edition::Narrow => narrow::SET_BYTES,
            Edition::Wide => wide::SET_BYTES,
        }
    }

    pub fn record_bytes(self) -> usize
        ensures { result ≡ record_bytes self }
    {
        match self {
            Edition::Narrow => narrow::RECORD_BYTES,
            Edition::Wide => wide::RECORD_BYTES,
        }
    }

    pub fn line_bytes(self) -> usize
        ensures { result ≡ line_bytes self }
    {
        match self {
            Edition::Narrow => narrow::LINE_BYTES,
            Edition::Wide => wide::LINE_BYTES,
        }
    }

    pub fn press_records(self) -> usize
        ensures { result ≡ press_records self }
    {
        match self {
            Edition::Narrow => narrow::PRESS_RECORDS,
            Edition::Wide => wide::PRESS_RECORDS,
        }
    }

    pub fn replay_records(self) -> usize
        ensures { result ≡ replay_records self }
    {
        match self {
            Edition::Narrow => narrow::REPLAY_RECORDS,
            Edition::Wide => wide::REPLAY_RECORDS,
        }
    }

    // The bytes of so many records.
    pub fn bytes_of(self, records: usize) -> usize
        requires { records ≤ most_records }
        ensures { result ≡ record_bytes self * records }
    {
        self.record_bytes() * records
    }

    // Where a record's bytes begin.
    pub fn start(self, k: RecordNo) -> usize
        requires { k.0 ≤ most_records }
        ensures { result ≡ record_bytes self * k.0 }
    {
        self.bytes_of(k.0)
    }

    // The whole records in so many bytes.
    pub fn records_in(self, bytes: usize) -> usize
        ensures { result ≡ bytes / record_bytes self }
    {
        bytes / self.record_bytes()
    }

    // The whole lines in so many bytes.
    pub fn lines_in(self, bytes: usize) -> usize
        ensures { result ≡ bytes / line_bytes self }
    {
        bytes / self.line_bytes()
    }
}
