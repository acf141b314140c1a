// What is done with a segment.

use crate::part::Part;

// What goes on: a part of the bytes, and the FIN that is kept, by its place.
#[derive(Clone, Copy, PartialEq, Eq, Debug)]
pub struct Passed {
    pub part: Part,
    pub fin: Option<u64>,
}

// The first word in a text: the place of the byte that completes it, and the word's number.
// Not automaton's `Match`: that one counts from the first byte of a slice, and this one from the first of the stream.
#[derive(Clone, Copy, PartialEq, Eq, Debug)]
pub struct WordAt {
    pub place: u64,
    pub word: u8,
}

// Why nothing of a segment may go on.
#[derive(Clone, Copy, PartialEq, Eq, Debug)]
pub enum Refused {
    // this word would stand in the text
    Word(WordAt),
    // a word came before
    Shut,
}
