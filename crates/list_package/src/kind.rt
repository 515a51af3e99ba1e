// The trait of an entry of lists.
ghost use Rattle.std.specs.Prelude.{◌≡◌};
ghost use Rattle.list_package.specs.Kinds.{Kind};

use crate::columns::Column;
use decimal_input::dec::Dec;
use model_types::{CellId, Period, Shared, Stresses};

/// An entry of lists, of one package or of several that differ in their numbers.
pub trait ListEntry: Copy + Drop {
    /// Which lists they are, where several packages have such entries.
    type Lists: Copy;

    ghost kind: { Self.Lists → Kind Self };

    /// The numbers of an entry after Layer Row Column.
    fn columns(lists: Self::Lists) -> &'static [Column]
        ensures { result.now ≡ (kind lists).columns };

    /// The entry of a cell.
    fn entry(lists: Self::Lists, cell: CellId, numbers: &[Dec]) -> Self
        ensures { result ≡ (kind lists).entry cell numbers.now };

    /// Whether a list may name a cell at most once.
    fn is_once(lists: Self::Lists) -> bool
        ensures { result ≡ (kind lists).once };

    /// Whether a period may have this list.
    fn suits(lists: Self::Lists, period: &Period, list: &[Self]) -> bool
        ensures { result ≡ (kind lists).suits period.now list.now };

    /// Puts this list in place of the stresses' earlier one.
    fn put(lists: Self::Lists, stresses: &mut Stresses, list: Shared<Self>)
        ensures { stresses.new ≡ (kind lists).put stresses.old list };
}
