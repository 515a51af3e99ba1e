// Whether each entry of a cell has ordered bounds and heads in range.
ghost use Rattle.std.specs.Prelude.{IsTrue, All, ◌↔◌, ◌≤◌, ◌≤ℤ◌};
ghost use Rattle.step_problem.specs.{IsHead, LinkFits, FixedFits, RiverFits, DrainFits, EvapFits};

use crate::entry::{Drain, Evap, Fixed, Link, River};
use crate::problem::is_head;

fn are_heads(lo: i64, hi: i64) -> bool
    ensures { IsTrue result ↔ (IsHead lo × IsHead hi) }
{
    is_head(lo) && is_head(hi)
}

fn link_fits(x: &Link) -> bool
    ensures { IsTrue result ↔ LinkFits x.now }
{
    0 < x.lo && x.lo <= x.hi
}

fn fixed_fits(x: &Fixed) -> bool
    ensures { IsTrue result ↔ FixedFits x.now }
{
    x.lo <= x.hi && are_heads(x.head_lo, x.head_hi)
}

fn river_fits(x: &River) -> bool
    ensures { IsTrue result ↔ RiverFits x.now }
{
    x.lo <= x.hi && are_heads(x.stage_lo, x.stage_hi) && are_heads(x.bottom_lo, x.bottom_hi)
}

fn drain_fits(x: &Drain) -> bool
    ensures { IsTrue result ↔ DrainFits x.now }
{
    x.lo <= x.hi && are_heads(x.elev_lo, x.elev_hi)
}

fn is_ordered(x: &Evap) -> bool
    ensures { IsTrue result ↔ ((x.now.lo ≤ x.now.hi) × (x.now.ext_lo ≤ℤ x.now.surf_hi)) }
{
    x.lo <= x.hi && x.ext_lo <= x.surf_hi
}

fn evap_fits(x: &Evap) -> bool
    ensures { IsTrue result ↔ EvapFits x.now }
{
    is_ordered(x) && are_heads(x.ext_lo, x.ext_hi) && are_heads(x.surf_lo, x.surf_hi)
}

fn links_in_range(links: &[Link]) -> bool
    ensures { IsTrue result ↔ All LinkFits links.now }
{
    links.iter().all(link_fits)
}

fn sources_in_range(fixed: &[Fixed], rivers: &[River]) -> bool
    ensures { IsTrue result ↔ (All FixedFits fixed.now × All RiverFits rivers.now) }
{
    fixed.iter().all(fixed_fits) && rivers.iter().all(river_fits)
}

fn sinks_in_range(drains: &[Drain], evaps: &[Evap]) -> bool
    ensures { IsTrue result ↔ (All DrainFits drains.now × All EvapFits evaps.now) }
{
    drains.iter().all(drain_fits) && evaps.iter().all(evap_fits)
}

pub(crate) fn in_range(
    links: &[Link],
    fixed: &[Fixed],
    rivers: &[River],
    drains: &[Drain],
    evaps: &[Evap],
) -> bool
    ensures { IsTrue result ↔ (All LinkFits links.now × All FixedFits fixed.now × All RiverFits rivers.now
        × All DrainFits drains.now × All EvapFits evaps.now) }
{
    links_in_range(links) && sources_in_range(fixed, rivers) && sinks_in_range(drains, evaps)
}
