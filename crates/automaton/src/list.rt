// A list of words that can be looked for.
ghost use Rattle.std.specs.Prelude.{◌≡◌, ℕ, ◌<◌, ◌≤◌, true, [], length, slice_index_or};
ghost use Rattle.automaton.specs.Lists.{distinct, total};
ghost use Rattle.automaton.specs.Words.{words_of};

pub(crate) const LONGEST_WORD: usize = 64;

// Up to 128 words of 1 to 64 bytes, 4,096 together, none twice.
#[derive(Drop)]
pub struct WordList {
    pub(crate) words: Vec<Vec<u8>>,
    ghost few: { length (words_of words.items) ≤ 128 },
    ghost some: { (k : ℕ) → k < length (words_of words.items) → 0 < length (slice_index_or (words_of words.items) k []) },
    ghost short: { (k : ℕ) → k < length (words_of words.items) → length (slice_index_or (words_of words.items) k []) ≤ 64 },
    ghost small: { total (words_of words.items) ≤ 4096 },
    ghost apart: { distinct (words_of words.items) ≡ true },
}
