//! A row of bits, one for each remainder of a line's number.

ghost use Rattle.std.specs.Prelude.{◌≡◌, ◌==◌, ◌%◌, ◌<◌, ◌↔◌, ◌||◌, ℕ, true, false, IsTrue, length};
ghost use Rattle.line_table.specs.Row.{is_set, same_bit, no_bits, ShareBit};

/// How many bits a row has.
pub const BITS: usize = 1_024;

/// How many bits one word has.
const WORD_BITS: usize = 64;

/// How many words hold a row.
const WORDS: usize = BITS / WORD_BITS;

/// A set of lines, each of which is hashed to its number modulo `BITS`.
#[derive(Clone, Copy)]
pub struct BitRow {
    words: [u64; WORDS],
}

impl BitRow {
    /// A row with no bit set.
    #[tactic(auto, unfolding(crate::specs::Row::no_bits))]
    pub const fn new() -> Self
        ensures { result ≡ no_bits }
    {
        BitRow { words: [0; WORDS] }
    }

    /// Sets the bit of the line.
    pub fn set(&mut self, line: u32)
        ensures { (other : ℕ) → is_set self.new other ≡ (is_set self.old other || same_bit line other) }
    {
        let bit = line as usize % BITS;
        self.words[bit / WORD_BITS] |= 1 << (bit % WORD_BITS);
    }

    /// Whether the bit of the line is set.
    pub fn is_set(&self, line: u32) -> bool
        ensures { result ≡ is_set self.now line }
    {
        let bit = line as usize % BITS;
        self.words[bit / WORD_BITS] >> (bit % WORD_BITS) & 1 == 1
    }

    /// Whether some bit is set in both rows.
    pub fn meets(&self, other: &BitRow) -> bool
        ensures { IsTrue result ↔ ShareBit self.now other.now }
    {
        share_bit(&self.words, &other.words)
    }
}

/// Whether some bit is set in both rows, which are given by their words.
fn share_bit(one: &[u64], other: &[u64]) -> bool
    requires one { length one.now ≡ WORDS }
    requires other { length other.now ≡ WORDS }
    ensures { IsTrue result ↔ ShareBit (record { words = one.now }) (record { words = other.now }) }
{
    one.iter()
        .zip(other)
        .any(|(word, beside)| word & beside != 0)
}
