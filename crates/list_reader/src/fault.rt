ghost use Rattle.std.specs.Prelude.{◌≡◌};
ghost use Rattle.list_reader.specs.declared.fault.ReadError.TheVariants as error;

use std::alloc::{AllocError, AllocFailed};

/// Why a line gives no call.
#[derive(Clone, Copy, PartialEq, Eq, Debug)]
pub enum Fault<'a> {
    /// The first word that cannot be read, as it stands in the line.
    Unreadable(&'a [u8]),
    /// Each word can be read, and there are too few of them.
    TooFew,
}

/// Why a line was not read to a call.
#[derive(Clone, Copy, PartialEq, Eq, Debug)]
pub enum ReadError<'a> {
    Fault(Fault<'a>),
    /// No memory for the edges.
    Memory(AllocError),
}

impl<'a> From<Fault<'a>> for ReadError<'a> {
    ghost from_gives = { λ fault e. e ≡ error.Fault fault };

    fn from(fault: Fault<'a>) -> ReadError<'a> {
        ReadError::Fault(fault)
    }
}

impl<'a, T: Drop> From<AllocFailed<T>> for ReadError<'a> {
    ghost from_gives = { λ _ e. (wanting : _) × (e ≡ error.Memory wanting) };

    fn from(error: AllocFailed<T>) -> ReadError<'a> {
        ReadError::Memory(error.into())
    }
}
