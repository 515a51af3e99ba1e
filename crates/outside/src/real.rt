ghost use Rattle.std.specs.Prelude.{◌≡◌, ℕ, ◌<◌, ◌≤◌, List, [], length, take, refl, IfOk, IfSome, IfNone, Some, ◌++◌};
ghost use Rattle.std.specs.Io.KnownBytes.{Appends, Consumes, IsAtEnd, Keeps};
ghost use Rattle.outside.specs.Files.{IsWholeReading};
ghost use Rattle.outside.specs.Puts.{Put, PutsMake, Seen};
ghost use Rattle.std.specs.Borrow.{ftrue};

use crate::traits::{FolderError, Found, Sink, SinkError};
use std::alloc::Global;
use std::io::{ErrorKind, Read, Write};
use std::marker::{Model, PhantomData};

// The number of bytes that one read put at the start of the piece; None if it failed. A read that a signal interrupts is
// no failure: it is made again, as `read_to_end` does.
fn read_part<S: Read>(from: &mut S, piece: &mut [u8]) -> Option<usize>
    ensures within { IfSome result (λ n. n ≤ length piece.new) }
    ensures taken { IfSome result (λ n. Consumes (S.remaining from.old) (S.remaining from.new) (take n piece.new)) }
    ensures end { IfSome result (λ n. n ≡ 0 → 0 < length piece.old → IsAtEnd (S.remaining from.new)) }
    ensures failed { IfNone result (Keeps (S.remaining from.old) (S.remaining from.new)) }
{
    for _ in 0..u64::MAX {
        match from.read(piece) {
            Ok(n) => return Some(n),
            Err(e) if e.kind() == ErrorKind::Interrupted => {}
            Err(_) => return None,
        }
    }
    None
}

/// All that a reader has left, if that is at most `limit` bytes. It stops reading once a read
/// returned nothing or failed, or past the limit.
pub fn read_whole<S: Read>(alloc: Global, from: &mut S, limit: u64) -> Result<Found, FolderError>
    ensures { IfOk result (IsWholeReading limit (S.remaining from.old)) }
{
    let mut bytes = Vec::new(alloc);
    let mut piece = [0u8; 4096];
    while bytes.len() as u64 <= limit {
        match read_part(from, &mut piece) {
            Some(0) => return Ok(Found::Bytes(bytes)),
            Some(n) => {
                if bytes.extend_from_slice(&piece[..n]).is_err() {
                    return Err(FolderError::Memory);
                }
            }
            None => return Err(FolderError::Read),
        }
    }
    Ok(Found::TooLong)
}

/// A writer as a sink. It tells the bytes that the writer has accepted since the sink was made, whatever the writer itself
/// tells, and counts the writes that failed. Where the writer tells its bytes, they grew by just those.
#[derive(Drop)]
pub struct RealSink<W: Write + Drop> {
    to: W,
    accepted: Accepted<W>,
    faults: u64,
}

impl<W: Write + Drop> Model for RealSink<W> {
    ghost Value = { Seen };

    ghost view = { λ s. record { written = Some s.accepted.bytes; faults = s.faults } };

    ghost invariant = { λ s. Appends (W.contents s.accepted.first) (W.contents s.to) s.accepted.bytes };
}

impl<W: Write + Drop> RealSink<W> {
    pub fn new(to: W) -> RealSink<W>
        ensures { result ≡ record { written = Some []; faults = 0 } }
    {
        let accepted = Accepted::nothing(&to);
        RealSink {
            to,
            accepted,
            faults: 0,
        }
    }
}

// The number of bytes that one write took; None if it failed or took none. A write that a signal interrupts is no
// failure: it is made again, as `write_all` does.
fn write_part<W: Write>(to: &mut W, bytes: &[u8]) -> Option<usize>
    ensures some { IfSome result (λ n. 0 < n) }
    ensures within { IfSome result (λ n. n ≤ length bytes.now) }
    ensures taken { IfSome result (λ n. Appends (W.contents to.old) (W.contents to.new) (take n bytes.now)) }
    ensures failed { IfNone result (Keeps (W.contents to.old) (W.contents to.new)) }
{
    for _ in 0..u64::MAX {
        match to.write(bytes) {
            Ok(n) if n > 0 => return Some(n),
            Err(e) if e.kind() == ErrorKind::Interrupted => {}
            _ => return None,
        }
    }
    None
}

impl<W: Write + Drop> Sink for RealSink<W> {
    ghost seen = { λ s. s };

    ghost leads = { PutsMake };

    ghost rests = { λ s. refl };

    ghost tells = { λ s puts t h. h };

    fn put(&mut self, piece: &[u8]) -> Result<(), SinkError> {
        let mut at = 0;
        while at < piece.len() {
            let rest = &piece[at..];
            match write_part(&mut self.to, rest) {
                Some(n) => {
                    self.accepted = self.accepted.and(&rest[..n]);
                    at += n;
                }
                None => {
                    self.faults = self.faults.saturating_add(1);
                    return Err(SinkError::Write);
                }
            }
        }
        Ok(())
    }
}

// What a writer has accepted. Only proofs read it: it takes no memory, and its methods do nothing at run time.

/// The writer as it was, and the bytes that it has accepted since.
#[derive(Drop)]
pub struct Accepted<W> {
    of: PhantomData<W>,
    pub ghost first: { W } by { W.code },
    pub ghost bytes: { List ℕ },
}

impl<W> Model for Accepted<W> {
    ghost also_owns = { λ _. ftrue };
}

// It owns nothing.
unsafe impl<W: Send> Send for Accepted<W> {}

impl<W> Accepted<W> {
    /// A writer that has accepted nothing yet.
    pub(crate) fn nothing(first: &W) -> Accepted<W>
        ensures { (result.first ≡ first.now) × (result.bytes ≡ []) }
    {
        Accepted { of: PhantomData }
    }

    /// The same, after more bytes.
    pub(crate) fn and(&self, more: &[u8]) -> Accepted<W>
        ensures { (result.first ≡ self.now.first) × (result.bytes ≡ self.now.bytes ++ more.now) }
    {
        Accepted { of: PhantomData }
    }
}
