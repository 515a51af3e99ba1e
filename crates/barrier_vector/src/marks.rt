// The marks of a side: the heads, stages, bottoms and elevations that may conduct. The outermost is the base.
ghost use Rattle.std.specs.Prelude.{◌≡◌, ℤ, Option};
ghost use Rattle.std.specs.Fn.{FnReturnsAt};
ghost use Rattle.barrier_vector.specs.{if_some, outer_of, outermost, cell_mark};

use step_problem::{Cell, Side};

fn if_conducts(hi: u64, head: i64) -> Option<i64>
    ensures { result ≡ if_some hi head }
{
    if hi > 0 { Some(head) } else { None }
}

/// The outer of two marks.
pub(crate) fn outer_mark(side: Side, a: Option<i64>, b: Option<i64>) -> Option<i64>
    ensures { result ≡ outer_of side a b }
{
    match (a, b) {
        (Some(a), Some(b)) => match side {
            Side::Low => Some(a.min(b)),
            Side::High => Some(a.max(b)),
        },
        (Some(a), None) => Some(a),
        (None, b) => b,
    }
}

// `mark` is the mark of an entry, if it may conduct.
fn outermost<E, F: Fn(&E) -> Option<i64>>(side: Side, entries: &[E], mark: F) -> Option<i64>
    requires { F.IsAlwaysCallable mark }
    ensures { (of : E → Option ℤ) → ((x : E) (r : Option ℤ) → FnReturnsAt F.Fn mark x r → r ≡ of x) → result ≡ outermost side of entries.now }
{
    let mut best = None;
    for x in entries {
        best = outer_mark(side, best, mark(x));
    }
    best
}

/// The outermost mark of a cell.
pub(crate) fn cell_mark(side: Side, cell: &Cell) -> Option<i64>
    ensures { result ≡ cell_mark side cell.now }
{
    let fixed = outermost(side, &cell.fixed, |x| {
        if_conducts(x.hi, side.bound_of(x.head_lo, x.head_hi))
    });
    let rivers = outermost(side, &cell.rivers, |x| {
        if_conducts(
            x.hi,
            side.bound_of(x.bottom_lo, x.stage_hi.max(x.bottom_hi)),
        )
    });
    let drains = outermost(side, &cell.drains, |x| {
        if_conducts(x.hi, side.bound_of(x.elev_lo, x.elev_hi))
    });
    outer_mark(side, fixed, outer_mark(side, rivers, drains))
}
