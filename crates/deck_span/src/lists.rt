// The first difference of two lists, and of two arrays.
ghost use Rattle.std.specs.Prelude.{◌≡◌, None, ℕ, MatchBool, MatchOption, length};
ghost use Rattle.std.specs.List.{AllZip};
ghost use Rattle.model_types.specs.{cell_of};
ghost use Rattle.deck_span.specs.Alike.{AreRatesAlike, AreEntriesAlike, AreGivenAlike};
ghost use Rattle.deck_span.specs.Order.{Finds, IsArrayCell, IsListCell, AreSame, IsFirst};

use crate::cells::{numbered_cell, place_apart};
use decimal_input::dec::Dec;
use model_types::{CellId, Entry, Given};

// Whether two lists have one length. A length has no cell.
pub fn same_length<T>(xs: &[T], ys: &[T]) -> Result<(), Option<CellId>>
    ensures { Finds (length ys.now ≡ length xs.now) (λ cell. cell ≡ None) result }
{
    if xs.len() == ys.len() {
        Ok(())
    } else {
        Err(None)
    }
}

/// The cell at which two lists or arrays differ first: that of the second one's item.
pub fn list_apart<T: Compared + Drop>(cells: u32, xs: &[T], ys: &[T]) -> Result<(), Option<CellId>>
    ensures { Finds (AllZip T.alike xs.now ys.now) (IsListCell T.alike T.number cells xs.now ys.now) result }
{
    same_length(xs, ys)?;
    match first_apart(xs, ys) {
        None => Ok(()),
        Some(place) => Err(numbered_cell(cells, ys[place].number(place))),
    }
}

/// The cell at which one of two rates is 0 and the other isn't.
pub fn idle_apart(cells: u32, xs: &[Dec], ys: &[Dec]) -> Result<(), Option<CellId>>
    ensures { Finds (AllZip AreRatesAlike xs.now ys.now) (IsArrayCell AreRatesAlike cells xs.now ys.now) result }
{
    same_length(xs, ys)?;
    place_apart(cells, first_idle_apart(xs, ys))
}

// The items of lists and arrays, and the first place at which two lists differ.

/// An item that another model's may be compared with.
pub trait Compared: Copy {
    ghost alike: { Self → Self → Type 0 };

    ghost number: { ℕ → Self → ℕ };

    fn is_alike(self, other: Self) -> bool
        ensures { MatchBool result (alike self other) (alike self other → ⊥) };

    /// The number of its cell, where it has this place in a list.
    fn number(self, place: usize) -> usize
        ensures { result ≡ number place self };
}

impl Compared for Dec {
    ghost alike = { AreSame };

    ghost number = { λ place x. place };

    fn is_alike(self, other: Dec) -> bool {
        self == other
    }

    fn number(self, place: usize) -> usize {
        place
    }
}

impl Compared for i64 {
    ghost alike = { AreSame };

    ghost number = { λ place x. place };

    fn is_alike(self, other: i64) -> bool {
        self == other
    }

    fn number(self, place: usize) -> usize {
        place
    }
}

impl Compared for Entry {
    ghost alike = { AreEntriesAlike };

    ghost number = { λ place x. cell_of x };

    fn is_alike(self, other: Entry) -> bool {
        match self {
            Entry::Well { cell, .. } =>
                matches!(other, Entry::Well { cell: c, .. } if c.0 == cell.0),
            Entry::River { cell, .. } =>
                matches!(other, Entry::River { cell: c, .. } if c.0 == cell.0),
            Entry::Drain { cell, .. } =>
                matches!(other, Entry::Drain { cell: c, .. } if c.0 == cell.0),
            Entry::General { cell, .. } =>
                matches!(other, Entry::General { cell: c, .. } if c.0 == cell.0),
        }
    }

    fn number(self, _place: usize) -> usize {
        match self {
            Entry::Well { cell, .. }
            | Entry::River { cell, .. }
            | Entry::Drain { cell, .. }
            | Entry::General { cell, .. } => cell.0 as usize,
        }
    }
}

impl Compared for Given {
    ghost alike = { AreGivenAlike };

    ghost number = { λ place x. x.cell.0 };

    fn is_alike(self, other: Given) -> bool {
        self.cell.0 == other.cell.0
    }

    fn number(self, _place: usize) -> usize {
        self.cell.0 as usize
    }
}

/// The first place at which two lists of one length differ.
pub fn first_apart<T: Compared + Drop>(xs: &[T], ys: &[T]) -> Option<usize>
    requires long { length ys.now ≡ length xs.now }
    ensures { MatchOption result (AllZip T.alike xs.now ys.now) (IsFirst T.alike xs.now ys.now) }
{
    for i in 0..xs.len() {
        if !xs[i].is_alike(ys[i]) {
            return Some(i);
        }
    }
    None
}

// Whether both rates are 0, or neither.
fn are_rates_alike(x: Dec, y: Dec) -> bool
    ensures { MatchBool result (AreRatesAlike x y) (AreRatesAlike x y → ⊥) }
{
    (x.digits == 0) == (y.digits == 0)
}

/// The first place at which one of two rates is 0 and the other isn't.
pub fn first_idle_apart(xs: &[Dec], ys: &[Dec]) -> Option<usize>
    requires long { length ys.now ≡ length xs.now }
    ensures { MatchOption result (AllZip AreRatesAlike xs.now ys.now) (IsFirst AreRatesAlike xs.now ys.now) }
{
    for i in 0..xs.len() {
        if !are_rates_alike(xs[i], ys[i]) {
            return Some(i);
        }
    }
    None
}
