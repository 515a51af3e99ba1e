// The hull of two entries of one shape.
ghost use Rattle.std.specs.Prelude.{◌≡◌, MatchOption};
ghost use Rattle.problem_hull.specs.Hulls.{link_shape, flow_shape, fixed_shape, river_shape, drain_shape, evap_shape, IsHullOf, link_hull, flow_hull};
ghost use Rattle.problem_hull.specs.Hulls.{fixed_hull, river_hull, drain_hull, evap_hull};

use step_problem::{Drain, Evap, Fixed, Flow, Link, River};

/// An entry that is known by bounds. `shape` is the entry without its bounds; `hull_of` is the hull of two of one shape.
pub trait Bounded: Copy {
    ghost shape: { Self → Self };

    ghost hull_of: { Self → Self → Self };

    /// The hull of two entries, or None where their shapes differ.
    fn hull(self, other: Self) -> Option<Self>
        ensures { MatchOption result (shape other ≡ shape self → ⊥) (λ r. IsHullOf shape hull_of self other r) };
}

impl Bounded for Link {
    ghost shape = { link_shape };

    ghost hull_of = { link_hull };

    fn hull(self, other: Link) -> Option<Link> {
        if self == other { Some(self) } else { None }
    }
}

impl Bounded for Flow {
    ghost shape = { flow_shape };

    ghost hull_of = { flow_hull };

    fn hull(self, other: Flow) -> Option<Flow> {
        if self.kind == other.kind {
            Some(Flow {
                kind: self.kind,
                lo: self.lo.min(other.lo),
                hi: self.hi.max(other.hi),
            })
        } else {
            None
        }
    }
}

impl Bounded for Fixed {
    ghost shape = { fixed_shape };

    ghost hull_of = { fixed_hull };

    fn hull(self, other: Fixed) -> Option<Fixed> {
        if self.kind == other.kind && self.source == other.source {
            Some(Fixed {
                kind: self.kind,
                source: self.source,
                lo: self.lo.min(other.lo),
                hi: self.hi.max(other.hi),
                head_lo: self.head_lo.min(other.head_lo),
                head_hi: self.head_hi.max(other.head_hi),
            })
        } else {
            None
        }
    }
}

impl Bounded for River {
    ghost shape = { river_shape };

    ghost hull_of = { river_hull };

    fn hull(self, other: River) -> Option<River> {
        Some(River {
            lo: self.lo.min(other.lo),
            hi: self.hi.max(other.hi),
            stage_lo: self.stage_lo.min(other.stage_lo),
            stage_hi: self.stage_hi.max(other.stage_hi),
            bottom_lo: self.bottom_lo.min(other.bottom_lo),
            bottom_hi: self.bottom_hi.max(other.bottom_hi),
        })
    }
}

impl Bounded for Drain {
    ghost shape = { drain_shape };

    ghost hull_of = { drain_hull };

    fn hull(self, other: Drain) -> Option<Drain> {
        Some(Drain {
            lo: self.lo.min(other.lo),
            hi: self.hi.max(other.hi),
            elev_lo: self.elev_lo.min(other.elev_lo),
            elev_hi: self.elev_hi.max(other.elev_hi),
        })
    }
}

impl Bounded for Evap {
    ghost shape = { evap_shape };

    ghost hull_of = { evap_hull };

    fn hull(self, other: Evap) -> Option<Evap> {
        Some(Evap {
            lo: self.lo.min(other.lo),
            hi: self.hi.max(other.hi),
            ext_lo: self.ext_lo.min(other.ext_lo),
            ext_hi: self.ext_hi.max(other.ext_hi),
            surf_lo: self.surf_lo.min(other.surf_lo),
            surf_hi: self.surf_hi.max(other.surf_hi),
        })
    }
}
