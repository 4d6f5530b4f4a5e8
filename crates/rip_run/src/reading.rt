//! The reading of a job.
ghost use Rattle.std.specs.Prelude.{◌≡◌, ◌+◌, ◌<◌, ◌≤◌, ◌^◌, ℕ, List, Option, length, vec_len, IfOk, OnOk, IfErr};
ghost use Rattle.rip_ports.specs.Ports.{Gives};
ghost use Rattle.rip_run.specs.Reading.{IsAtEnd, IsFailure, HasFailed, WasTooLong};

use copy_lists::NoMemory;
use rip_ports::{Failed, Source};
use std::alloc::{AllocError, Global};

/// Why a job was not read.
#[derive(Clone, Copy, Debug, PartialEq, Eq)]
pub(crate) enum Unread {
    /// The source gave more bytes than are taken.
    TooLong,
    /// The source failed.
    Fault,
    /// Memory ran out.
    NoMemory,
}

impl From<Failed> for Unread {
    ghost use Rattle.std.specs.Prelude.{◌≡◌};
    ghost use Rattle.rip_run.specs.declared.reading.Unread.TheVariants.{Fault};

    ghost from_gives = { λ _ unread. unread ≡ Fault };

    fn from(_: Failed) -> Unread {
        Unread::Fault
    }
}

impl From<AllocError> for Unread {
    ghost use Rattle.std.specs.Prelude.{◌≡◌};
    ghost use Rattle.rip_run.specs.declared.reading.Unread.TheVariants.{NoMemory as Wanting};

    ghost from_gives = { λ _ unread. unread ≡ Wanting };

    fn from(_: AllocError) -> Unread {
        Unread::NoMemory
    }
}

/// The most bytes that one call takes from the source.
const PIECE: usize = 65536;

/// Reads the source to its end, or until it has given one byte more than `most`.
#[tactic(auto, using(crate::proofs::Giving::none_given, crate::proofs::Giving::longer))]
pub(crate) fn read_job<S: Source>(
    alloc: Global,
    source: &mut S,
    most: usize,
) -> Result<Vec<u8>, Unread>
    requires { most < 2 ^ 62 }
    ensures given { IfOk result (λ job. Gives job.items (S.left source.old) (S.left source.new)) }
    ensures ended { IfOk result (λ _. IsAtEnd (S.left source.new)) }
    ensures short { IfOk result (λ job. vec_len job ≤ most) }
    ensures long { IfErr result (WasTooLong most (S.left source.old) (S.left source.new)) }
    ensures failed { IfErr result (HasFailed (S.faults source.old) (S.faults source.new)) }
{
    let mut job = Vec::new(alloc);
    let mut piece = empty_piece(alloc)?;
    while job.len() <= most {
        let room = PIECE.min(most + 1 - job.len());
        if take_piece(source, &mut piece[..room], &mut job)? == 0 {
            return Ok(job);
        }
    }
    Err(Unread::TooLong)
}

/// Room for the bytes of one call.
fn empty_piece(alloc: Global) -> Result<Vec<u8>, AllocError>
    ensures { IfOk result (λ piece. vec_len piece ≡ PIECE) }
{
    vec![in alloc; 0u8; PIECE]
}

/// Puts the source's next bytes at the end of the job, and tells their number.
#[tactic(auto, using(crate::proofs::Giving::more_given, crate::proofs::Giving::at_end))]
fn take_piece<S: Source>(
    source: &mut S,
    piece: &mut [u8],
    job: &mut Vec<u8>,
) -> Result<usize, Unread>
    requires { 0 < length piece.old }
    ensures given { (start : Option (List ℕ)) → Gives job.old.items start (S.left source.old) →
        OnOk result (Gives job.new.items start (S.left source.new)) }
    ensures ended { IfOk result (λ count. count ≡ 0 → IsAtEnd (S.left source.new)) }
    ensures grown { IfOk result (λ count. vec_len job.new ≡ vec_len job.old + count) }
    ensures within { IfOk result (λ count. count ≤ length piece.old) }
    ensures counted { S.faults source.old ≤ S.faults source.new }
    ensures failed { IfErr result (IsFailure (S.faults source.old) (S.faults source.new)) }
{
    let count = source.take(piece)?;
    job.extend_from_slice(&piece[..count])?;
    Ok(count)
}
