// The text of an answer: words, formats, sets as 16 hex digits, or 32 of a wide sheet, bytes as hex. Nothing that prints answers an error: what
// cannot be written is left out, and what comes after it is tried.
ghost use Rattle.std.specs.Prelude.{◌≡◌, ◌≤◌, length, IfSome, IsNone, OnOk};
ghost use Rattle.std.specs.Io.KnownBytes.{Appends};

use clause::Set;
use sheet::edition::Edition;
use std::fmt::{InlineText, Write};
use std::{fmt, io};

// The words are one write, and what it leaves of them another.
pub fn print(rt: &impl Print, words: &[u8]) {
    let _ = calls::write_all(&mut io::writer(rt), words);
}

// A format's writer: each literal and each value is a piece, and a write of its own.
#[derive(Drop)]
struct Pieces<'a, W> {
    to: &'a mut W,
    // of a piece that was left out
    error: Option<io::Error>,
}

impl<W: io::Write> Write for Pieces<'_, W> {
    ghost write_str_gives = { λ s bs t. (t.to.ghost_name ≡ s.to.ghost_name)
        × (IsNone t.error → IsNone s.error × Appends (W.contents s.to.now) (W.contents t.to.now) bs) };

    fn write_str(&mut self, piece: &str) -> fmt::Result {
        if let Err(e) = calls::write_all(self.to, piece.as_bytes()) {
            self.error = Some(e);
        }
        Ok(())
    }
}

// An error where a piece was left out.
fn print_to<W: io::Write, D: fmt::Display + Drop>(to: &mut W, text: D) -> io::Result<()>
    ensures { OnOk result (IfSome (D.output text) (Appends (W.contents to.old) (W.contents to.new))) }
{
    let mut pieces = Pieces { to, error: None };
    let shown = pieces.write(text);
    match pieces.error {
        Some(e) => Err(e),
        None => Ok(shown?),
    }
}

pub fn print_fmt<D: fmt::Display + Drop>(rt: &impl Print, text: D) {
    let _ = print_to(&mut io::writer(rt), text);
}

// A set as a sheet of this edition has it.
#[derive(Clone, Copy)]
pub struct SetIn(pub Edition, pub Set);

// Two for each byte.
const WORD_DIGITS: usize = 2 * 8;

// A word is one piece, put together first.
fn put_word<W: Write>(f: &mut fmt::Formatter<W>, word: u64) -> fmt::Result {
    let digits = InlineText::<WORD_DIGITS>::of(format_args!("{word:016x}"));
    f.write_str(digits.as_str())
}

// A narrow set is the low word; of a wide one the high word comes first.
impl fmt::Display for SetIn {
    fn fmt<W: Write>(&self, f: &mut fmt::Formatter<W>) -> fmt::Result {
        let Set { low, high } = self.1;
        match self.0 {
            Edition::Narrow => {}
            Edition::Wide => put_word(f, high)?,
        }
        put_word(f, low)
    }
}

// Bytes are printed so many at a time, each as two digits. A part is put together in fixed memory, and is one write.
const PART: usize = 2000;

// The digit of a number below 16.
fn digit(n: u8) -> u8 {
    b"0123456789abcdef"[usize::from(n % 16)]
}

fn print_part(rt: &impl Print, bytes: &[u8])
    requires { length bytes.now ≤ 2000 }
{
    let mut text = [0u8; 2 * PART];
    for (b, digits) in bytes.iter().zip(text.chunks_exact_mut(2)) {
        digits[0] = digit(*b / 16);
        digits[1] = digit(*b);
    }
    print(rt, &text[..2 * bytes.len()]);
}

// Each byte as two digits, or "-" where there is none.
pub fn print_bytes(rt: &impl Print, bytes: &[u8]) {
    if bytes.is_empty() {
        print(rt, b"-");
    }
    for part in bytes.chunks(PART) {
        print_part(rt, part);
    }
}
