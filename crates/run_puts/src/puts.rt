ghost use Rattle.std.specs.Prelude.{MatchResult, ◌≡◌};
ghost use Rattle.run_puts.specs.{IsLast, IsPut, EndsOutOfMemory, code_of, PutsMore, IsRun, NeverCut, IsEnded, first_not_ok, or_else};

use crate::job_end::JobEnd;
use outside::{Refusal, Sink, SinkError};
use std::alloc::AllocError;
use step_problem::{NoBound, Place};

/// Puts the line MEMORY once, and ends the run.
pub fn put_memory<K: Sink>(out: &mut K) -> Status
    ensures { PutsMore K.leads out.old out.new (EndsOutOfMemory result) }
{
    match out.put(b"MEMORY\n") {
        Err(SinkError::Write) => Status::WriteFault,
        Err(SinkError::Memory) => Status::Memory,
        Ok(()) => Status::Memory,
    }
}

/// Puts a piece. If the result is a status, it ends the run.
pub fn put_piece<K: Sink>(out: &mut K, piece: &[u8]) -> Option<Status>
    ensures { PutsMore K.leads out.old out.new (IsPut piece.now result) }
{
    match out.put(piece) {
        Ok(()) => None,
        Err(SinkError::Write) => Some(Status::WriteFault),
        Err(SinkError::Memory) => Some(put_memory(out)),
    }
}

/// Puts the last line of a run, which then ends with the status `meant`.
pub fn put_last<K: Sink>(out: &mut K, line: &[u8], meant: Status) -> Status
    ensures { PutsMore K.leads out.old out.new (IsLast line.now meant result) }
{
    match put_piece(out, line) {
        None => meant,
        Some(other) => other,
    }
}

/// Puts the last line of a run, or the line MEMORY if there was no memory for it.
pub fn put_line<K: Sink>(out: &mut K, line: Result<Vec<u8>, AllocError>, meant: Status) -> Status
    ensures { PutsMore K.leads out.old out.new (λ more. MatchResult line (λ text. IsLast text.items meant result more) (λ _. EndsOutOfMemory result more)) }
{
    match line {
        Ok(text) => put_last(out, text.as_slice(), meant),
        Err(_) => put_memory(out),
    }
}

/// How a run ends. Periods and steps are counted from 1.
#[derive(Drop)]
pub enum Status {
    /// The command was done.
    Ok,
    /// The words don't form a command.
    Usage,
    /// The files are refused.
    Refused(Refusal),
    /// A step has no bounds.
    NoBound {
        period: u32,
        step: u32,
        fault: NoBound,
    },
    /// The rounds didn't settle a step.
    Unfinished {
        period: u32,
        step: u32,
    },
    /// The folder failed to read.
    ReadFault,
    /// A sink failed to write.
    WriteFault,
    /// Memory ran out.
    Memory,
    /// A listing isn't certified at a step.
    NotCertified {
        period: u32,
        step: u32,
        place: Place,
    },
}

impl Status {
    /// The exit code of the program.
    pub fn code(&self) -> u8
        ensures { result ≡ code_of self.now }
    {
        match self {
            Status::Ok => 0,
            Status::Usage => 1,
            Status::Refused(_) => 2,
            Status::NoBound { .. } => 3,
            Status::Unfinished { .. } => 4,
            Status::ReadFault => 5,
            Status::WriteFault => 6,
            Status::Memory => 7,
            Status::NotCertified { .. } => 8,
        }
    }
}

/// The first of two statuses that isn't Ok.
fn or_else(first: Status, later: Status) -> Status
    ensures { result ≡ or_else first later }
{
    match first {
        Status::Ok => later,
        other => other,
    }
}

/// The status of the first job that didn't end Ok.
fn first_status(mut ends: Vec<JobEnd>) -> Status
    ensures { result ≡ first_not_ok ends.items }
{
    let mut status = Status::Ok;
    while let Some(end) = ends.pop() {
        status = or_else(end.status, status);
    }
    status
}

/// Puts the text of each job, in order, and then END. The status is that of the first job that didn't end Ok, unless a
/// put fails or memory is short, which ends the batch there.
pub fn put_ends<K: Sink>(out: &mut K, ends: Vec<JobEnd>) -> Status
    ensures { PutsMore K.leads out.old out.new (IsRun (IsEnded ends.items) NeverCut result) }
{
    for end in ends.as_slice() {
        if let Some(status) = put_piece(out, end.text.as_slice()) {
            return status;
        }
    }
    put_last(out, b"END\n", first_status(ends))
}
