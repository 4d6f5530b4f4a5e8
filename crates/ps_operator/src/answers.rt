//! What the machine is told of an operator's result.
ghost use Rattle.std.specs.Prelude.{◌≡◌};
ghost use Rattle.ps_operator.specs.Owes as spec;

use ps_kinds::{Act, NoMemory, Refusal};

/// An act, or that the operator failed.
#[inline]
pub fn told(outcome: Result<Act, Refusal>) -> Result<Act, NoMemory>
    ensures { result ≡ spec.told outcome }
{
    match outcome {
        Ok(act) => Ok(act),
        Err(Refusal::Error(error)) => Ok(Act::Fail(error)),
        Err(Refusal::NoMemory) => Err(NoMemory),
    }
}

/// That the operator is done, or that it failed.
#[inline]
pub fn told_done(outcome: Result<(), Refusal>) -> Result<Act, NoMemory>
    ensures { result ≡ spec.told_done outcome }
{
    match outcome {
        Ok(()) => Ok(Act::Done),
        Err(Refusal::Error(error)) => Ok(Act::Fail(error)),
        Err(Refusal::NoMemory) => Err(NoMemory),
    }
}
