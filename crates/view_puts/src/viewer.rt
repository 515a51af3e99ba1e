// A viewer that puts each view to a sink.
ghost use Rattle.std.specs.Prelude.{◌≡◌, None, List};
ghost use Rattle.outside.specs.{Put};
ghost use Rattle.model_types.specs.{HasSize};
ghost use Rattle.view_puts.specs.Puts.{IsPutOf, LeadOn};

use listing_io::write_view;
use model_types::{Grid, TimeStep};
use outside::{Sink, SinkError};
use settle_driver::{StepViewer, Viewer};
use std::alloc::{AllocError, Global};
use step_problem::{Barrier, Bound, Problem};

/// Puts each view of the heads of a grid's variable cells to a sink, which it borrows, as one piece of text, with the time that
/// it was told last. It stops at the first put that fails, and where a text is out of memory. From then on nothing is put.
#[derive(Drop)]
pub struct SinkViewer<'a, W: Sink> {
    sink: &'a mut W,
    grid: &'a Grid,
    alloc: Global,
    at: TimeStep,
    stop: Option<SinkError>,
    ghost size: { HasSize grid.now },
}

impl<'a, W: Sink> Viewer for SinkViewer<'a, W> {
    ghost use Rattle.std.specs.Prelude.{true, is_some, refl};
    ghost use Rattle.listing_io.specs.{view_text};
    ghost use Rattle.settle_driver.specs.Views.{EnclosesPair};
    ghost use Rattle.view_puts.specs.Puts.{LeadOn, ViewPuts, no_lead, no_view};

    ghost viewed = { λ s p b n t. (t.sink.ghost_name ≡ s.sink.ghost_name) × (t.grid ≡ s.grid) × (t.at ≡ s.at)
        × ViewPuts (view_text s.grid.now s.at p) (EnclosesPair p b) (LeadOn W.leads s.sink.now t.sink.now) n s.stop t.stop };

    ghost stopped = { λ s. is_some s.stop ≡ true };

    ghost rests = { λ s p b. (
      refl,
      refl,
      refl,
      no_view (view_text s.grid.now s.at p) (EnclosesPair p b) (LeadOn W.leads s.sink.now s.sink.now) s.stop (no_lead W.leads s.sink.now),
    ) };

    fn view(&mut self, p: &Problem, _b: &Barrier, heads: &[Bound]) -> bool {
        if self.stop.is_some() {
            return false;
        }
        let text = write_view(self.alloc, self.grid, self.at, p, heads);
        self.stop = put_text(self.sink, text);
        self.stop.is_none()
    }
}

impl<'a, W: Sink> StepViewer for SinkViewer<'a, W> {
    ghost begins = { λ s period step t. (t.sink ≡ s.sink) × (t.grid ≡ s.grid) × (t.at ≡ record { period = period; step = step }) × (t.stop ≡ s.stop) };

    ghost stop = { λ s. s.stop };

    fn begin(&mut self, period: u32, step: u32) {
        self.at = TimeStep { period, step };
    }

    fn stop(&self) -> Option<SinkError> {
        self.stop
    }
}

impl<'a, W: Sink> SinkViewer<'a, W> {
    /// It has been told no time.
    pub fn new(alloc: Global, sink: &'a mut W, grid: &'a Grid) -> SinkViewer<'a, W>
        requires { HasSize grid.now }
        ensures sink { (result.sink.ghost_name ≡ sink.entry.ghost_name) × (result.sink.now ≡ sink.entry.now) }
        ensures grid { result.grid.now ≡ grid.entry.now }
        ensures stop { result.stop ≡ None }
    {
        SinkViewer {
            sink,
            grid,
            alloc,
            at: TimeStep { period: 0, step: 0 },
            stop: None,
        }
    }
}

// One piece is put.

/// Puts a text, where there was memory for it, and gives why viewing stops.
pub(crate) fn put_text<W: Sink>(
    sink: &mut W,
    text: Result<Vec<u8>, AllocError>,
) -> Option<SinkError>
    ensures { (tail : List Put) × IsPutOf text result tail × LeadOn W.leads sink.old sink.new tail }
{
    match text {
        Err(AllocError) => Some(SinkError::Memory),
        Ok(text) => sink.put(text.as_slice()).err(),
    }
}
