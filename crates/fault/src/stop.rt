// Why a program ends before its input does.
ghost use Rattle.std.specs.Prelude.{◌≡◌};
ghost use Rattle.fault.specs.Stops.{OutOfMemory, StopsFor};
ghost use Rattle.fault.specs.declared.stop.Stop.TheVariants.{Failed};

use crate::{Fault, ReadError};
use std::alloc::AllocError;
use std::io;

#[derive(Drop)]
pub enum Stop<R> {
    // an argument that there is not
    Usage,
    // the input is refused
    Fault(Fault<R>),
    // reading, printing or taking memory failed
    Failed(io::Error),
}

impl<R> From<io::Error> for Stop<R> {
    ghost from_gives = { λ e stop. stop ≡ Failed e };

    fn from(e: io::Error) -> Stop<R> {
        Stop::Failed(e)
    }
}

impl<R> From<AllocError> for Stop<R> {
    ghost from_gives = { λ _ stop. OutOfMemory stop };

    fn from(e: AllocError) -> Stop<R> {
        Stop::Failed(io::Error::from(e))
    }
}

impl<R> From<ReadError<R>> for Stop<R> {
    ghost from_gives = { StopsFor };

    fn from(error: ReadError<R>) -> Stop<R> {
        match error {
            ReadError::Memory => Stop::from(AllocError),
            ReadError::Fault(fault) => Stop::Fault(fault),
        }
    }
}
