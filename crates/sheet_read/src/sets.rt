// A set of variables: one word, and in the wide edition two, the low one first.
ghost use Rattle.std.specs.Prelude.{◌≡◌, ◌+◌, ◌≤◌, length};
ghost use Rattle.base.specs.Bytes.{value_at};
ghost use Rattle.clause.specs.Denote.{set_of};
ghost use Rattle.sheet.specs.Editions.{set_bytes};

use clause::Set;
use sheet::edition::Edition;
use sheet::limits;

pub fn set_at(edition: Edition, b: &[u8], at: usize) -> Set
    requires { at + set_bytes edition ≤ length b.now }
    ensures { set_of result ≡ value_at (set_bytes edition) b.now at }
{
    match edition {
        Edition::Narrow => Set {
            low: base::word_at(b, at),
            high: 0,
        },
        Edition::Wide => Set {
            low: base::word_at(b, at),
            high: base::word_at(b, at + limits::WORD_BYTES),
        },
    }
}
