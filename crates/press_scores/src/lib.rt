// Nodes by score, in rows of bits. "take the one after which most nodes can be dropped at once; ties go to the smallest number": the first node of the
// highest row that has one, found word by word and not node by node.
#![tactic(auto)]

ghost use Rattle.std.specs.Prelude.{◌≡◌, cond, ℕ, ◌≤◌, ◌<◌, length, IfSome, IfNone};
ghost use Rattle.clause.specs.Sets.{with, without};
ghost use Rattle.clause.specs.Denote.{word};
ghost use Rattle.sheet.specs.Editions.{capacity};
ghost use Rattle.press_spec.specs.TopDown.{highest};
ghost use Rattle.press_nodes.specs.Tables.{changed};
ghost use Rattle.press_scores.specs.Rows.{score_words, scores_in, bit_put, Lowest, FirstIn};

use sheet::NodeNo;
use sheet::limits::{CAPACITY, WORD_BYTES};

// The nodes that a word has a bit for.
const WORD: usize = 8 * WORD_BYTES;

// The words of a row, which has CAPACITY bits; and of the three rows.
const ROW_WORDS: usize = CAPACITY / WORD;

pub const SCORE_WORDS: usize = 3 * ROW_WORDS;

// The node that scores most, and its score.
#[derive(Clone, Copy)]
pub struct Best {
    pub node: NodeNo,
    pub score: u16,
}

fn with_bit(bits: u64, b: usize, on: bool) -> u64
    requires { b < word }
    ensures { result ≡ cond on (with b bits) (without b bits) }
{
    if on {
        return bits | (1 << b);
    }
    bits ^ (bits & (1 << b))
}

fn put_bit(rows: &mut [u64], g: usize, n: NodeNo, on: bool)
    requires { (length rows.old ≡ score_words) × (1 ≤ g) × (g ≤ 3) × (n.0 < capacity) }
    ensures { rows.new ≡ bit_put rows.old g n.0 on }
{
    let i = n.index();
    let at = (g - 1) * ROW_WORDS + i / WORD;
    rows[at] = with_bit(rows[at], i % WORD, on);
}

// A node is in the row of its score, and in no other.
pub fn put_score(rows: &mut [u64], n: NodeNo, score: u16)
    requires { (length rows.old ≡ score_words) × (n.0 < capacity) × (score ≤ 3) }
    ensures { (m : ℕ) → scores_in rows.new m ≡ changed n.0 score (scores_in rows.old) m }
{
    put_bit(rows, 1, n, score == 1);
    put_bit(rows, 2, n, score == 2);
    put_bit(rows, 3, n, score == 3);
}

// The place of the lowest bit that is set.
fn lowest(bits: u64) -> u32
    requires { bits ≡ 0 → ⊥ }
    ensures { Lowest word bits result }
{
    u64::trailing_zeros(bits)
}

// The first node of a row, if it has one.
fn first_in(rows: &[u64], g: usize) -> Option<NodeNo>
    requires { (length rows.now ≡ score_words) × (1 ≤ g) × (g ≤ 3) }
    ensures some { IfSome result (λ n. (n.0 < capacity) × FirstIn rows.now g n.0) }
    ensures none { IfNone result (FirstIn rows.now g capacity) }
{
    let from = (g - 1) * ROW_WORDS;
    for w in 0..ROW_WORDS {
        let bits = rows[from + w];
        if bits != 0 {
            return Some(NodeNo((w * WORD + lowest(bits) as usize) as u16));
        }
    }
    None
}

// "ties go to the smallest number": the first node of the highest row that has one. In empty rows that is node 0, which scores 0.
pub fn highest(rows: &[u64]) -> Best
    requires { length rows.now ≡ score_words }
    ensures node { result.node.0 ≡ highest (scores_in rows.now) capacity }
    ensures score { result.score ≡ scores_in rows.now result.node.0 }
{
    for score in (1..=3u16).rev() {
        if let Some(node) = first_in(rows, usize::from(score)) {
            return Best { node, score };
        }
    }
    Best {
        node: NodeNo(0),
        score: 0,
    }
}

// The same, if a node scores at all.
pub fn highest_if_any(rows: &[u64]) -> Option<Best>
    requires { length rows.now ≡ score_words }
    ensures some { IfSome result (λ best. (best.node.0 ≡ highest (scores_in rows.now) capacity) × (best.score ≡ scores_in rows.now best.node.0) × (0 < best.score)) }
    ensures none { IfNone result (scores_in rows.now (highest (scores_in rows.now) capacity) ≡ 0) }
{
    let best = highest(rows);
    if best.score == 0 {
        return None;
    }
    Some(best)
}
