ghost use Rattle.std.specs.Prelude.{◌≡◌, Err};
ghost use Rattle.script.specs.declared.error.LineError.TheVariants.{Failed};

use std::alloc::{AllocError, AllocFailed};
use std::io;

// That a line does not say what it has to say.
#[derive(Clone, Copy, Debug)]
pub struct NotUnderstood;

// Why a line was not worked through.
#[derive(Clone, Copy, Debug)]
pub enum LineError {
    NotUnderstood,
    // Memory ran out, or a write failed.
    Failed(io::Error),
}

impl From<NotUnderstood> for LineError {
    ghost use Rattle.std.specs.Prelude.{◌≡◌};
    ghost use Rattle.script.specs.declared.error.LineError.TheVariants.{NotUnderstood};

    ghost from_gives = { λ _ r. r ≡ NotUnderstood };

    fn from(_error: NotUnderstood) -> LineError {
        LineError::NotUnderstood
    }
}

impl From<io::Error> for LineError {
    ghost use Rattle.std.specs.Prelude.{◌≡◌};
    ghost use Rattle.script.specs.declared.error.LineError.TheVariants.{Failed};

    ghost from_gives = { λ e r. r ≡ Failed e };

    fn from(failure: io::Error) -> LineError {
        LineError::Failed(failure)
    }
}

impl From<AllocError> for LineError {
    ghost use Rattle.script.specs.Read.{IsFailure};

    ghost from_gives = { λ _ r. IsFailure r };

    fn from(error: AllocError) -> LineError {
        LineError::Failed(io::Error::from(error))
    }
}

impl<T: Drop> From<AllocFailed<T>> for LineError {
    ghost use Rattle.script.specs.Read.{IsFailure};

    ghost from_gives = { λ _ r. IsFailure r };

    fn from(refused: AllocFailed<T>) -> LineError {
        LineError::Failed(io::Error::from(refused))
    }
}

impl LineError {
    // Prints that line `number` is not understood; what else kept it from being worked through is passed on.
    pub fn report(self, rt: &HostRuntime, number: usize) -> io::Result<()>
        ensures { (e : _) → self ≡ Failed e → result ≡ Err e }
    {
        match self {
            LineError::NotUnderstood => println!(rt; "line {number}: not understood"),
            LineError::Failed(error) => Err(error),
        }
    }
}
