// Reading a record: its fields by the columns of the scope document's table, then its kind (6), the bytes that must be zero (7), the pivot (8).
#![tactic(auto)]

ghost use Rattle.std.specs.Prelude.{◌≡◌, ◌≤◌, length};
ghost use Rattle.sheet.specs.Editions.{record_bytes};
ghost use Rattle.sheet.specs.Fields.{fields_of, read_given, read_step, read_drop, read_fields, reading};
ghost use Rattle.sheet.specs.Denote.{fields_in, reading_of};

use sheet::edition::Edition;
use sheet::{Fields, Kind, LineNo, NodeNo, Reason, Record, limits};

fn fields_of(edition: Edition, b: &[u8]) -> Fields
    requires { record_bytes edition ≤ length b.now }
    ensures { fields_in result ≡ fields_of edition b.now }
{
    Fields {
        kind: b[0],
        pivot: b[1],
        left: base::u16_at(b, 2),
        right: base::u16_at(b, 4),
        line: base::u16_at(b, 6),
        clause: sheet_read::clause_at(edition, b, limits::POSITIVE_AT),
    }
}

#[tactic(auto, unfolding(sheet::specs::Fields::read_given, sheet::specs::Fields::when_zero, sheet::specs::Denote::reading_of, sheet::specs::Denote::record_of))]
fn read_given(f: Fields) -> Result<Record, Reason>
    ensures { reading_of result ≡ read_given (fields_in f) }
{
    if f.pivot == 0 && f.left == 0 && f.right == 0 {
        return Ok(Record::Given {
            line: LineNo(f.line),
            clause: f.clause,
        });
    }
    Err(Reason::NotZero)
}

#[tactic(auto, unfolding(sheet::specs::Fields::read_step, sheet::specs::Fields::when_zero, sheet::specs::Denote::reading_of, sheet::specs::Denote::record_of))]
fn read_step(edition: Edition, f: Fields) -> Result<Record, Reason>
    ensures { reading_of result ≡ read_step edition (fields_in f) }
{
    if f.line != 0 {
        return Err(Reason::NotZero);
    }
    if f.pivot < edition.variables() {
        return Ok(Record::Step {
            pivot: f.pivot,
            left: NodeNo(f.left),
            right: NodeNo(f.right),
            clause: f.clause,
        });
    }
    Err(Reason::Pivot)
}

#[tactic(auto, unfolding(sheet::specs::Fields::read_drop, sheet::specs::Fields::when_zero, sheet::specs::Denote::reading_of, sheet::specs::Denote::record_of, clause::specs::Clauses::alike))]
fn read_drop(f: Fields) -> Result<Record, Reason>
    ensures { reading_of result ≡ read_drop (fields_in f) }
{
    if f.pivot == 0 && f.right == 0 && f.line == 0 && f.clause == clause::nothing() {
        return Ok(Record::Drop(NodeNo(f.left)));
    }
    Err(Reason::NotZero)
}

#[tactic(auto, unfolding(sheet::specs::Fields::read_fields, sheet::specs::Denote::reading_of, sheet::specs::Denote::kind_of))]
fn read_fields(edition: Edition, f: Fields, drops: bool) -> Result<Record, Reason>
    ensures { reading_of result ≡ read_fields edition drops (fields_in f) }
{
    match Kind::try_from(f.kind)? {
        Kind::Given => read_given(f),
        Kind::Step => read_step(edition, f),
        Kind::Drop if drops => read_drop(f),
        Kind::Drop => Err(Reason::Kind),
    }
}

// How the bytes of a record read; `drops` says whether a drop is a known kind, as it is for the replay.
#[tactic(auto, unfolding(sheet::specs::Fields::reading))]
pub fn read_record(edition: Edition, b: &[u8], drops: bool) -> Result<Record, Reason>
    requires { record_bytes edition ≤ length b.now }
    ensures { reading_of result ≡ reading edition drops b.now }
{
    read_fields(edition, fields_of(edition, b), drops)
}
