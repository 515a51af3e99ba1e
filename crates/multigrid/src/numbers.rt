// Reading, writing and cutting the numbers of a solver. Each call is total.
ghost use Rattle.std.specs.Prelude.{◌≡◌, IsErr, IsOk, OkIff, OnErr, OnOk, vec_len};
ghost use Rattle.std.specs.List.{AllClonesOf};

use std::alloc::{AllocError, Global};

/// A value that was filled, or nothing where memory ended. A value is dropped here in place of at each `?` of its maker.
pub fn filled_value<T: Drop>(value: T, filled: Result<(), AllocError>) -> Result<T, AllocError>
    ensures { OkIff result (IsOk filled) value }
{
    filled?;
    Ok(value)
}

// No unknown is above 2^60 in magnitude, so that sums of products of weights and unknowns fit.
const LONGEST: i128 = 1_152_921_504_606_846_976;

/// A list that has `count` times a value. Where memory ends `memory` says so, and the list is empty: so a maker of several lists has one exit.
pub fn list_of<T: Copy + Drop>(
    memory: &mut Result<(), AllocError>,
    alloc: Global,
    value: T,
    count: usize,
) -> Vec<T>
    ensures count { OnOk memory.new (vec_len result ≡ count) }
    ensures each { OnOk memory.new (AllClonesOf T.is_clone value result.items) }
    ensures ended { OnErr memory.old (IsErr memory.new) }
{
    match vec![in alloc; value; count] {
        Ok(list) => list,
        Err(fault) => {
            *memory = Err(fault);
            Vec::new(alloc)
        }
    }
}

/// The label of nothing.
pub const NONE: u32 = u32::MAX;

/// The number at an index, or 0 past the end.
pub fn at<T: Copy + Default>(xs: &[T], index: usize) -> T {
    xs.get(index).copied().unwrap_or_default()
}

/// The label at an index, or none past the end.
pub fn label_at(xs: &[u32], index: usize) -> u32 {
    xs.get(index).copied().unwrap_or(NONE)
}

/// Writes a number at an index, unless that is past the end.
pub fn put<T: Copy>(xs: &mut [T], index: usize, value: T) {
    if index < xs.len() {
        xs[index] = value;
    }
}

/// The index as a label, as levels and lists keep it.
pub fn label(index: usize) -> u32 {
    u32::try_from(index).unwrap_or(u32::MAX)
}

/// The nearest number from -2^60 to 2^60.
pub fn clamp_long(x: i128) -> i64 {
    x.clamp(-LONGEST, LONGEST) as i64
}

/// The bits of a number's magnitude.
pub fn width(x: i128) -> u32 {
    128_u32.saturating_sub(x.unsigned_abs().leading_zeros())
}

/// A number times a power of two, rounded down; 0 where it is too long.
pub fn shift(x: i128, places: i64) -> i128 {
    let by = places.unsigned_abs().min(127) as u32;
    if places < 0 {
        x.wrapping_shr(by)
    } else if by.saturating_add(width(x)) <= 126 {
        x.wrapping_shl(by)
    } else {
        0
    }
}

/// The greatest of these numbers, at least 1.
pub fn greatest(xs: &[i64]) -> i64 {
    xs.iter().fold(1, |most, x| most.max(*x))
}
