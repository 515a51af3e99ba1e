// The pairs of zones from stress period to stress period.
ghost use Rattle.std.specs.Prelude.{◌≡◌, ◌≤◌, IfOk, IfSome, OnOk, length, option_map};
ghost use Rattle.zone_pairs.specs.{pairs_in, ArePairs, CanPair, listed_pairs, zones_of};

use crate::pair::ZonePair;
use crate::pairs::zone_pairs;
use model_types::{FlowModel, GivenHeads, Listed};
use std::alloc::{AllocError, Global};

// The zones of a model's cells, the given heads up to a stress period, and the pairs of zones at that period.
#[derive(Drop)]
struct Walk<'a> {
    zones: &'a [u32],
    given: GivenHeads,
    pairs: Listed<ZonePair>,
}

/// The pairs of zones of a model that share a face, at a stress period; none without a zone file.
#[derive(Drop)]
pub struct ZonePairs<'a> {
    walk: Option<Walk<'a>>,
}

impl<'a> ZonePairs<'a> {
    /// The pairs of a model with these zones, before its first period.
    pub fn new(
        alloc: Global,
        model: &FlowModel,
        zones: Option<&'a [u32]>,
    ) -> Result<ZonePairs<'a>, AllocError>
        requires { IfSome zones (λ z. CanPair model.now z.now) }
        ensures pairs { IfOk result (ArePairs model.now) }
        ensures zones { IfOk result (λ x. zones_of x ≡ option_map (λ z. z.now) zones.entry) }
    {
        let Some(zones) = zones else {
            return Ok(ZonePairs { walk: None });
        };
        let given = GivenHeads::new(alloc, model);
        let pairs = Listed::new(zone_pairs(alloc, model, &given, zones)?);
        let walk = Walk {
            zones,
            given,
            pairs,
        };
        Ok(ZonePairs { walk: Some(walk) })
    }

    /// Moves to a stress period. It continues from the current one, and starts anew before an earlier one.
    pub fn go_to(&mut self, alloc: Global, model: &FlowModel, period: u32) -> Result<(), AllocError>
        requires pairs { ArePairs model.now self.old }
        requires last { period ≤ length model.now.periods }
        ensures pairs { OnOk result (ArePairs model.now self.new) }
        ensures there { OnOk result (listed_pairs self.new ≡ pairs_in model.now (zones_of self.new) period) }
        ensures zones { zones_of self.new ≡ zones_of self.old }
    {
        if let Some(walk) = &mut self.walk {
            if walk.given.period != period {
                walk.given.advance_to(alloc, model, period)?;
                walk.pairs = Listed::new(zone_pairs(alloc, model, &walk.given, walk.zones)?);
            }
        }
        Ok(())
    }

    /// The pairs at the current period.
    pub fn as_slice(&self) -> &[ZonePair]
        ensures { result.now ≡ listed_pairs self.now }
    {
        match &self.walk {
            None => &[],
            Some(walk) => walk.pairs.as_slice(),
        }
    }
}
