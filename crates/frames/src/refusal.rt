// Why the reading of the input ends.
ghost use Rattle.frames.specs.Configs.{refusal_of};
ghost use Rattle.frames.specs.Items.{refusal_number};
ghost use Rattle.frames.specs.declared.refusal.Refusal.TheVariants.{Bad};
ghost use Rattle.std.specs.Prelude.{◌≡◌};

use automaton::ListRefusal;
use fault::{Numbered, ReadError};
use filter::NoSuchSide;

// Those of a list stand here again: within a variant of their own, a cut item would be a cut list.
#[derive(Clone, Copy, PartialEq, Eq, Debug)]
pub enum Refusal {
    // the bytes end within the item: more of them may mend it
    Cut,
    // an unknown kind, a side or a power that there is not, a second configuration
    Bad,
    // more than 128 words, an empty one, one above 64 bytes, more than 4,096 bytes together
    TooMuch,
    // the same word twice
    Twice,
}

impl Numbered for Refusal {
    ghost number = { refusal_number };

    fn number(self) -> u8 {
        match self {
            Refusal::Cut => 1,
            Refusal::Bad => 1,
            Refusal::TooMuch => 11,
            Refusal::Twice => 12,
        }
    }
}

impl From<ListRefusal> for Refusal {
    ghost from_gives = { λ why refusal. refusal ≡ refusal_of why };

    fn from(refusal: ListRefusal) -> Refusal {
        match refusal {
            ListRefusal::Cut => Refusal::Cut,
            ListRefusal::TooMuch => Refusal::TooMuch,
            ListRefusal::Twice => Refusal::Twice,
        }
    }
}

impl From<NoSuchSide> for Refusal {
    ghost from_gives = { λ _ refusal. refusal ≡ Bad };

    fn from(_e: NoSuchSide) -> Refusal {
        Self::Bad
    }
}

// A refusal, and the byte at which it stands: the first of its item, or that of the length of a word.
pub type Fault = fault::Fault<Refusal>;

pub type ConfigError = ReadError<Refusal>;
