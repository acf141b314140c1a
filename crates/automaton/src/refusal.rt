// Why a word list is refused.
ghost use Rattle.automaton.specs.Lists.{refusal_number};

use fault::{Fault, Numbered, ReadError};

#[derive(Clone, Copy, PartialEq, Eq, Debug)]
pub enum ListRefusal {
    // the input ends within the list
    Cut,
    // more than 128 words, an empty one, one above 64 bytes, more than 4,096 bytes together
    TooMuch,
    // the same word twice
    Twice,
}

impl Numbered for ListRefusal {
    ghost number = { refusal_number };

    fn number(self) -> u8 {
        match self {
            ListRefusal::Cut => 1,
            ListRefusal::TooMuch => 11,
            ListRefusal::Twice => 12,
        }
    }
}

// A refusal, and the byte at which it stands: that of the length of the first word with a fault.
pub type ListFault = Fault<ListRefusal>;

pub type ListError = ReadError<ListRefusal>;
