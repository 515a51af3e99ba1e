// Rivers, drains and evapotranspirations of the difference of two plans' heads: branches to a known head of 0.
ghost use Rattle.std.specs.Prelude.{◌≡◌, ℕ};
ghost use Rattle.step_problem.specs.declared.entry.Fixed.{Fixed};
ghost use Rattle.step_problem.specs.declared.heads.Bound.{Bound};
ghost use Rattle.plan_step.specs.Branches.{branch, drain_branch, evap_branch, evap_least, evap_most, river_branch};

use crate::shares::acting;
use step_problem::{Bound, Drain, Evap, Fixed, FixedKind, River, Side};

/// An entry whose flow is linear between two heads: in the difference of two plans' heads it is a branch to 0.
pub trait Ramp: Copy {
    ghost branch_of: { ℕ → Bound → Bound → Self → Fixed };

    /// What the entry gives a cell more in the base plan than in the other one, where the cell's heads lie within these bounds: over the part of its
    /// conductance that acts. The least acts at both plans' lower heads and the highest foot, the most at their upper heads and the lowest foot.
    fn branch(self, id: u32, base: Bound, planned: Bound) -> Fixed
        ensures { result ≡ branch_of id base planned self };
}

fn branch(id: u32, lo: u64, hi: u64) -> Fixed
    ensures { result ≡ branch id lo hi }
{
    Fixed {
        kind: FixedKind::General,
        source: id,
        lo: lo.min(hi),
        hi,
        head_lo: 0,
        head_hi: 0,
    }
}

/// A river's foot is its bottom.
impl Ramp for River {
    ghost branch_of = { river_branch };

    fn branch(self, id: u32, base: Bound, planned: Bound) -> Fixed {
        let lo = acting(Side::Low, self.lo, self.bottom_hi, base.low, planned.low);
        let hi = acting(Side::High, self.hi, self.bottom_lo, base.high, planned.high);
        branch(id, lo, hi)
    }
}

/// A drain's foot is its elevation.
impl Ramp for Drain {
    ghost branch_of = { drain_branch };

    fn branch(self, id: u32, base: Bound, planned: Bound) -> Fixed {
        let lo = acting(Side::Low, self.lo, self.elev_hi, base.low, planned.low);
        let hi = acting(Side::High, self.hi, self.elev_lo, base.high, planned.high);
        branch(id, lo, hi)
    }
}

// Of an evapotranspiration acts what lies above its extinction elevation, less what lies above its surface: the least, and the most.
fn evap_least(base: Bound, planned: Bound, evap: Evap) -> u64
    ensures { result ≡ evap_least base planned evap }
{
    let own = acting(Side::Low, evap.lo, evap.ext_hi, base.low, planned.low);
    let above = acting(Side::High, evap.lo, evap.surf_lo, base.high, planned.high);
    own.saturating_sub(above)
}

fn evap_most(base: Bound, planned: Bound, evap: Evap) -> u64
    ensures { result ≡ evap_most base planned evap }
{
    let surface = evap.surf_hi.max(evap.ext_hi);
    let own = acting(Side::High, evap.hi, evap.ext_lo, base.high, planned.high);
    let above = acting(Side::Low, evap.hi, surface, base.low, planned.low);
    own.saturating_sub(above)
}

/// An evapotranspiration has two feet: its extinction elevation and its surface.
impl Ramp for Evap {
    ghost branch_of = { evap_branch };

    fn branch(self, id: u32, base: Bound, planned: Bound) -> Fixed {
        let lo = evap_least(base, planned, self);
        let hi = evap_most(base, planned, self);
        branch(id, lo, hi)
    }
}
