// Why a call is refused, by the numbers of docs/FORMAT.md.
ghost use Rattle.std.specs.Prelude.{◌≡◌};
ghost use Rattle.medium.specs.Refusal.{refusal_number, code_of};

use std::fmt;

#[derive(Clone, Copy, Debug, PartialEq, Eq)]
pub enum Refusal {
    // The block is Empty.
    NotFormatted,
    // Bytes that are no header, where one has to be.
    FsCorrupted,
    // A place that the chip does not have, or a store that is not aligned.
    Io,
    // The object's state does not allow it, or a value that cannot be was handed in.
    InvalidOperation,
    InsufficientSpace,
    BadGeometry,
    BadRoom,
    PowerLost,
    // The original Rust would panic.
    RustPanic,
    // Under the strict mark a unit would be programmed again.
    NotErased,
    NotFound,
    Dangling,
}

impl Refusal {
    pub fn number(self) -> u8
        ensures { result ≡ refusal_number self }
    {
        match self {
            Refusal::NotFormatted => 1,
            Refusal::FsCorrupted => 2,
            Refusal::Io => 3,
            Refusal::InvalidOperation => 4,
            Refusal::InsufficientSpace => 5,
            Refusal::BadGeometry => 6,
            Refusal::BadRoom => 7,
            Refusal::PowerLost => 8,
            Refusal::RustPanic => 9,
            Refusal::NotErased => 10,
            Refusal::NotFound => 13,
            Refusal::Dangling => 14,
        }
    }
}

// The number of an answer: 0 where the call is done.
pub fn number<T: Copy>(answer: Result<T, Refusal>) -> u8
    ensures { result ≡ code_of answer }
{
    match answer {
        Ok(_) => 0,
        Err(refusal) => refusal.number(),
    }
}
