// Numbers read from bytes and stored into them, the lowest byte first.
#![tactic(auto)]

ghost use Rattle.std.specs.Prelude.{◌≡◌, [], ◌∷◌, ◌+◌, ◌≤◌, length};
ghost use Rattle.base.specs.Bytes.{part, value_at, bytes, put};

// The N bytes from `at` on.
fn bytes_at<const N: usize>(s: &[u8], at: usize) -> [u8; N]
    requires { at + N ≤ length s.now }
    ensures { result ≡ part N s.now at }
{
    let mut found = [0; N];
    found.copy_from_slice(&s[at..at + N]);
    found
}

#[tactic(auto, unfolding(crate::specs::Bytes::value_at, crate::specs::Bytes::part, crate::specs::Bytes::value))]
pub fn u16_at(s: &[u8], at: usize) -> u16
    requires { at + 2 ≤ length s.now }
    ensures { result ≡ value_at 2 s.now at }
{
    u16::from_le_bytes(bytes_at(s, at))
}

#[tactic(auto, unfolding(crate::specs::Bytes::value_at, crate::specs::Bytes::part, crate::specs::Bytes::value))]
pub fn word_at(s: &[u8], at: usize) -> u64
    requires { at + 8 ≤ length s.now }
    ensures { result ≡ value_at 8 s.now at }
{
    u64::from_le_bytes(bytes_at(s, at))
}

// These bytes from `at` on; the others stay.
fn put_bytes<const N: usize>(d: &mut [u8], at: usize, x: [u8; N])
    requires { at + N ≤ length d.old }
    ensures { d.new ≡ put d.old at x.entry }
{
    d[at..at + N].copy_from_slice(&x);
}

pub fn put_pair(d: &mut [u8], at: usize, x: u8, y: u8)
    requires { at + 2 ≤ length d.old }
    ensures { d.new ≡ put d.old at (x ∷ y ∷ []) }
{
    put_bytes(d, at, [x, y]);
}

#[tactic(auto, unfolding(crate::specs::Bytes::bytes))]
pub fn put_u16(d: &mut [u8], at: usize, x: u16)
    requires { at + 2 ≤ length d.old }
    ensures { d.new ≡ put d.old at (bytes 2 x) }
{
    put_bytes(d, at, x.to_le_bytes());
}

#[tactic(auto, unfolding(crate::specs::Bytes::bytes))]
pub fn put_word(d: &mut [u8], at: usize, word: u64)
    requires { at + 8 ≤ length d.old }
    ensures { d.new ≡ put d.old at (bytes 8 word) }
{
    put_bytes(d, at, word.to_le_bytes());
}
