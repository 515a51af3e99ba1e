// The end of a run that has read no model.
ghost use Rattle.run_puts.specs.{PutsMore};
ghost use Rattle.engine.specs.{IsReadingEnd};

use listing_io::write_refused;
use outside::{InputFault, Sink};
use run_puts::{Status, put_last, put_memory};
use std::alloc::Global;

/// Ends a run whose files have no model.
pub(crate) fn end_reading<K: Sink>(alloc: Global, fault: InputFault, out: &mut K) -> Status
    ensures { PutsMore K.leads out.old out.new (IsReadingEnd fault result) }
{
    match fault {
        InputFault::Memory => put_memory(out),
        InputFault::ReadFault => put_last(out, b"READFAULT\n", Status::ReadFault),
        InputFault::Refused(refusal) => match write_refused(alloc, &refusal) {
            Ok(line) => put_last(out, line.as_slice(), Status::Refused(refusal)),
            Err(_) => put_memory(out),
        },
    }
}
