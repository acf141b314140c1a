// Reading a word list from bytes.
ghost use Rattle.std.specs.Prelude.{◌≡◌, ◌<◌, ◌≤◌, [], length, Some, None, MatchOption, MatchResult, slice_index_or};
ghost use Rattle.automaton.specs.Lists.{refusal_at, word};
ghost use Rattle.automaton.specs.ReadList.{Reads, texts};
ghost use Rattle.automaton.specs.Text.{member};
ghost use Rattle.automaton.specs.Words.{words_of};

use crate::list::{LONGEST_WORD, WordList};
use crate::refusal::{ListError, ListFault, ListRefusal};
use std::alloc::Global;

const MOST_WORDS: usize = 128;

const MOST_BYTES: usize = 4096;

// At most 128 words, once for each word of a list: a map would be one more thing to prove.
fn is_among(word: &[u8], words: &[Vec<u8>]) -> bool
    ensures { result ≡ member word.now (words_of words.now) }
{
    words.iter().any(|earlier| earlier.as_slice() == word)
}

// The word whose length stands first in some bytes, behind words of `size` bytes together.
fn next_word<'a>(bytes: &'a [u8], words: &[Vec<u8>], size: usize) -> Result<&'a [u8], ListRefusal>
    requires { size ≤ 4096 }
    ensures { MatchResult result
        (λ w. (refusal_at (words_of words.now) size 0 bytes.now ≡ None) × (w.now ≡ word 0 bytes.now))
        (λ why. refusal_at (words_of words.now) size 0 bytes.now ≡ Some why) }
{
    if words.len() >= MOST_WORDS {
        return Err(ListRefusal::TooMuch);
    }
    let [len, rest @ ..] = bytes else {
        return Err(ListRefusal::Cut);
    };
    let len = usize::from(*len);
    if len == 0 || len > LONGEST_WORD || size + len > MOST_BYTES {
        return Err(ListRefusal::TooMuch);
    }
    let Some(word) = rest.get(..len) else {
        return Err(ListRefusal::Cut);
    };
    if is_among(word, words) {
        return Err(ListRefusal::Twice);
    }
    Ok(word)
}

impl WordList {
    // Reads a list from the front of some bytes, and says how many of them it takes.
    pub fn read(heap: Global, bytes: &[u8]) -> Result<(WordList, usize), ListError>
        ensures { Reads bytes.now result }
    {
        let Some(count) = bytes.first() else {
            return Err(ListError::Fault(ListFault {
                refusal: ListRefusal::Cut,
                at: 0,
            }));
        };
        let mut words = Vec::new(heap);
        let mut size = 0;
        // a place and no rest of the bytes: a fault tells its place, and a rest would have to be turned back into it
        let mut at = 1;
        for _read in 0..usize::from(*count) {
            let word = next_word(&bytes[at..], &words, size).map_err(|refusal| ListFault {
                refusal,
                at,
            })?;
            at += 1 + word.len();
            size += word.len();
            words.push(word.to_vec(heap)?)?;
        }
        Ok((WordList { words }, at))
    }

    // How many words there are.
    pub fn len(&self) -> usize
        ensures { result ≡ length (texts self.now) }
    {
        self.words.len()
    }

    // The words, each at its number.
    pub fn words(&self) -> &[Vec<u8>]
        ensures { words_of result.now ≡ texts self.now }
    {
        self.words.as_slice()
    }

    // The word of a number.
    pub fn word(&self, number: usize) -> Option<&[u8]>
        ensures { MatchOption result (length (texts self.now) ≤ number) (λ w. (number < length (texts self.now)) × (w.now ≡ slice_index_or (texts self.now) number [])) }
    {
        self.words.get(number).map(|word| word.as_slice())
    }
}
