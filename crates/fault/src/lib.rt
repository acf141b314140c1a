// Why reading an input ends, and at which byte.
#![tactic(auto)]

mod stop;

ghost use Rattle.std.specs.Prelude.{◌≡◌, ℕ, ◌++◌, Some, codes, decimal};
ghost use Rattle.fault.specs.Behind.{Behind};
ghost use Rattle.fault.specs.declared.ReadError.TheVariants as error;

use std::alloc::{AllocError, AllocFailed};
use std::fmt;
pub use stop::Stop;

// Why something that was read is refused. It is reported under a number, which clauses name: so a trait, and no From for u8.
pub trait Numbered {
    ghost number: { Self → ℕ };

    fn number(self) -> u8
        ensures { result ≡ number self };
}

// A refusal, and the byte at which it stands.
#[derive(Clone, Copy, PartialEq, Eq, Debug)]
pub struct Fault<R> {
    pub refusal: R,
    pub at: usize,
}

// How a fault is reported, by every program.
impl<R: Numbered + Copy> fmt::Display for Fault<R> {
    ghost output = { λ f. Some (codes "fault " ++ (decimal (R.number f.refusal) ++ (codes " at byte " ++ decimal f.at))) };

    fn fmt<W: fmt::Write>(&self, f: &mut fmt::Formatter<W>) -> fmt::Result {
        let number = self.refusal.number();
        let at = self.at;
        write!(f, "fault {number} at byte {at}")
    }
}

// Why nothing was read: memory was wanting, or the input has a fault.
#[derive(Clone, Copy, PartialEq, Eq, Debug)]
pub enum ReadError<R> {
    Memory,
    Fault(Fault<R>),
}

impl<R> ReadError<R> {
    // The error in an input of which what was read is the part behind the first `bytes`. Places are counted modulo 2^64.
    pub fn behind<S: From<R>>(self, bytes: usize) -> ReadError<S>
        ensures { Behind S.from_gives bytes self result }
    {
        match self {
            ReadError::Memory => ReadError::Memory,
            ReadError::Fault(Fault { refusal, at }) => ReadError::Fault(Fault {
                refusal: S::from(refusal),
                at: bytes.wrapping_add(at),
            }),
        }
    }
}

impl<R> From<AllocError> for ReadError<R> {
    ghost from_gives = { λ _ e. e ≡ error.Memory };

    fn from(_e: AllocError) -> ReadError<R> {
        ReadError::Memory
    }
}

impl<R, T: Drop> From<AllocFailed<T>> for ReadError<R> {
    ghost from_gives = { λ _ e. e ≡ error.Memory };

    fn from(_e: AllocFailed<T>) -> ReadError<R> {
        ReadError::Memory
    }
}

impl<R> From<Fault<R>> for ReadError<R> {
    ghost from_gives = { λ f e. e ≡ error.Fault f };

    fn from(fault: Fault<R>) -> ReadError<R> {
        ReadError::Fault(fault)
    }
}
