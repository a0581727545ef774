// Why a command did nothing.
ghost use Rattle.std.specs.Prelude.{◌≡◌};
ghost use Rattle.script.specs.declared.failure.Failure.TheVariants.{Refused, OutOfMemory};

use schema::Refusal;
use std::alloc::AllocError;
use std::error::Error;

#[derive(Clone, Copy, PartialEq, Eq, Debug)]
pub enum Failure {
    Refused(Refusal),
    // no more memory for hint rows
    OutOfMemory,
    NoDraft,
    NoSchema,
    NotThereYet,
    NotUnderstood,
}

impl From<Refusal> for Failure {
    ghost from_gives = { λ refusal failure. failure ≡ Refused refusal };

    fn from(refusal: Refusal) -> Failure {
        Failure::Refused(refusal)
    }
}

impl From<AllocError> for Failure {
    ghost from_gives = { λ _ failure. failure ≡ OutOfMemory };

    fn from(_error: AllocError) -> Failure {
        Failure::OutOfMemory
    }
}

impl Error for Failure {}
