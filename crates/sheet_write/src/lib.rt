// Writing a record, by the columns of the scope document's table.
#![tactic(auto)]

ghost use Rattle.std.specs.Prelude.{◌≡◌, ◌+◌, ◌*◌, ◌≤◌, length};
ghost use Rattle.base.specs.Bytes.{bytes, put};
ghost use Rattle.clause.specs.Denote.{set_of, literals_of};
ghost use Rattle.sheet.specs.declared.edition.Edition.TheVariants.{Wide};
ghost use Rattle.sheet.specs.Editions.{set_bytes, record_bytes, line_bytes, most_records};
ghost use Rattle.sheet.specs.Fields.{clause_bytes, number_bytes, field_bytes, fields_for, record_bytes_of};
ghost use Rattle.sheet.specs.Denote.{fields_in, record_of};

use clause::{Clause, Set};
use sheet::edition::Edition;
use sheet::{Fields, Kind, Record, RecordNo, limits};

fn put_two_words(d: &mut [u8], at: usize, s: Set)
    requires { at + set_bytes Wide ≤ length d.old }
    ensures { d.new ≡ put d.old at (bytes (set_bytes Wide) (set_of s)) }
{
    base::put_word(d, at, s.low);
    base::put_word(d, at + limits::WORD_BYTES, s.high);
}

// A set: one word, and in the wide edition two, the low one first.
fn put_set(edition: Edition, d: &mut [u8], at: usize, s: Set)
    requires { at + set_bytes edition ≤ length d.old }
    ensures { d.new ≡ put d.old at (bytes (set_bytes edition) (set_of s)) }
{
    match edition {
        Edition::Narrow => base::put_word(d, at, s.low),
        Edition::Wide => put_two_words(d, at, s),
    }
}

// Two sets, one after the other.
fn put_clause(edition: Edition, d: &mut [u8], at: usize, c: Clause)
    requires { at + line_bytes edition ≤ length d.old }
    ensures { d.new ≡ put d.old at (clause_bytes edition (literals_of c)) }
{
    put_set(edition, d, at, c.positive);
    put_set(edition, d, at + edition.set_bytes(), c.negative);
}

// The columns that are numbers.
fn put_numbers(d: &mut [u8], at: usize, f: Fields)
    requires { at + 8 ≤ length d.old }
    ensures { d.new ≡ put d.old at (number_bytes (fields_in f)) }
{
    base::put_pair(d, at, f.kind, f.pivot);
    base::put_u16(d, at + 2, f.left);
    base::put_u16(d, at + 4, f.right);
    base::put_u16(d, at + 6, f.line);
}

fn put_fields(edition: Edition, d: &mut [u8], at: usize, f: Fields)
    requires { at + record_bytes edition ≤ length d.old }
    ensures { d.new ≡ put d.old at (field_bytes edition (fields_in f)) }
{
    put_numbers(d, at, f);
    put_clause(edition, d, at + limits::POSITIVE_AT, f.clause);
}

#[tactic(auto, unfolding(sheet::specs::Fields::fields_for, sheet::specs::Denote::record_of))]
fn fields_for(r: Record) -> Fields
    ensures { fields_in result ≡ fields_for (record_of r) }
{
    match r {
        Record::Given { line, clause } => Fields {
            kind: Kind::Given as u8,
            pivot: 0,
            left: 0,
            right: 0,
            line: line.0,
            clause,
        },
        Record::Step {
            pivot,
            left,
            right,
            clause,
        } => Fields {
            kind: Kind::Step as u8,
            pivot,
            left: left.0,
            right: right.0,
            line: 0,
            clause,
        },
        Record::Drop(node) => Fields {
            kind: Kind::Drop as u8,
            pivot: 0,
            left: node.0,
            right: 0,
            line: 0,
            clause: clause::nothing(),
        },
    }
}

// Record r as record k of d; the other bytes of d are untouched.
#[tactic(auto, unfolding(sheet::specs::Fields::record_bytes_of))]
pub fn put_record(edition: Edition, d: &mut [u8], k: RecordNo, r: Record)
    requires { (k.0 ≤ most_records) × (record_bytes edition * k.0 + record_bytes edition ≤ length d.old) }
    ensures { d.new ≡ put d.old (record_bytes edition * k.0) (record_bytes_of edition (record_of r)) }
{
    put_fields(edition, d, edition.start(k), fields_for(r));
}
