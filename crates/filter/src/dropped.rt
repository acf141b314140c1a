// Why a packet does not go out.
ghost use Rattle.std.specs.Prelude.{◌≡◌};
ghost use Rattle.filter.specs.Dropped.{dropped_for};
ghost use Rattle.filter.specs.declared.dropped.Dropped.TheVariants.{Refused};
ghost use Rattle.filter.specs.declared.dropped.Refusal.TheVariants as refusal;

use stream::WordAt;

#[derive(Clone, Copy, PartialEq, Eq, Debug)]
pub enum Refusal {
    // it cannot be read
    Unread(packet::segment::Refusal),
    // no such stream has begun
    NotBegun,
    // 256 streams are held
    TooMany,
    // an opening packet that carries bytes
    OpensWithBytes,
    Shut,
    // nothing is left of the packet
    Empty,
}

#[derive(Clone, Copy, PartialEq, Eq, Debug)]
pub enum Dropped {
    // not passed on, and nothing has changed
    Refused(Refusal),
    // this word would stand in the text: not passed on, and the stream is shut
    Word(WordAt),
}

impl From<packet::segment::Refusal> for Refusal {
    ghost from_gives = { λ why r. r ≡ refusal.Unread why };

    fn from(why: packet::segment::Refusal) -> Refusal {
        Refusal::Unread(why)
    }
}

impl From<Refusal> for Dropped {
    ghost from_gives = { λ why r. r ≡ Refused why };

    fn from(why: Refusal) -> Dropped {
        Dropped::Refused(why)
    }
}

impl From<stream::Refused> for Dropped {
    ghost from_gives = { λ why r. r ≡ dropped_for why };

    fn from(why: stream::Refused) -> Dropped {
        match why {
            stream::Refused::Word(word) => Dropped::Word(word),
            stream::Refused::Shut => Dropped::Refused(Refusal::Shut),
        }
    }
}
