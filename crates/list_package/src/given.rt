// The lists of given heads.
ghost use Rattle.std.specs.Prelude.{◌≡◌, ◌↔◌, IsTrue, All};
ghost use Rattle.std.specs.List.{list_all};
ghost use Rattle.list_package.specs.Entries.{given_heads, is_level, is_growing};

use crate::columns::Column;
use crate::kind::ListEntry;
use decimal_input::dec::Dec;
use model_types::layers::dec_at;
use model_types::{CellId, Given, Period, Shared, Stresses};
use number_limits::is_one;

/// The package CHD.
#[derive(Clone, Copy)]
pub struct SpecifiedHeads;

fn is_level(entry: &Given) -> bool
    ensures { result ≡ is_level entry.now }
{
    entry.shead == entry.ehead
}

fn each_level(list: &[Given]) -> bool
    ensures { IsTrue result ↔ All (λ x. IsTrue (is_level x)) list.now }
{
    list.iter().all(is_level)
}

fn all_level(list: &[Given]) -> bool
    ensures { result ≡ list_all is_level list.now }
{
    each_level(list)
}

fn is_growing(period: &Period) -> bool
    ensures { result ≡ is_growing period.now }
{
    period.steady && period.nstp > 1 && !is_one(period.tsmult)
}

impl ListEntry for Given {
    type Lists = SpecifiedHeads;

    ghost kind = { λ lists. given_heads };

    fn columns(lists: SpecifiedHeads) -> &'static [Column] {
        &[Column::Head, Column::Head]
    }

    fn entry(lists: SpecifiedHeads, cell: CellId, numbers: &[Dec]) -> Given {
        Given {
            cell,
            shead: dec_at(numbers, 0),
            ehead: dec_at(numbers, 1),
        }
    }

    fn is_once(lists: SpecifiedHeads) -> bool {
        true
    }

    fn suits(lists: SpecifiedHeads, period: &Period, list: &[Given]) -> bool {
        if is_growing(period) {
            all_level(list)
        } else {
            true
        }
    }

    fn put(lists: SpecifiedHeads, stresses: &mut Stresses, list: Shared<Given>)
        ensures { stresses.new ≡ given_heads.put stresses.old list }
    {
        stresses.given = list;
    }
}
