// The lists of wells, rivers, drains and general heads.
ghost use Rattle.std.specs.Prelude.{◌≡◌};
ghost use Rattle.list_package.specs.Kinds.{kind_of};

use crate::columns::Column;
use crate::kind::ListEntry;
use decimal_input::dec::Dec;
use model_types::layers::dec_at;
use model_types::{CellId, Entry, Period, Shared, Stresses};

/// A package of lists of entries: WEL, RIV, DRN or GHB.
#[derive(Clone, Copy)]
pub enum ListKind {
    Wells,
    Rivers,
    Drains,
    Generals,
}

impl ListEntry for Entry {
    type Lists = ListKind;

    ghost kind = { kind_of };

    fn columns(lists: ListKind) -> &'static [Column] {
        match lists {
            ListKind::Wells => &[Column::Rate],
            ListKind::Rivers => &[Column::Head, Column::Conductance, Column::Head],
            ListKind::Drains | ListKind::Generals => &[Column::Head, Column::Conductance],
        }
    }

    fn entry(lists: ListKind, cell: CellId, numbers: &[Dec]) -> Entry {
        let first = dec_at(numbers, 0);
        let second = dec_at(numbers, 1);
        match lists {
            ListKind::Wells => Entry::Well { cell, q: first },
            ListKind::Rivers => Entry::River {
                cell,
                stage: first,
                cond: second,
                bottom: dec_at(numbers, 2),
            },
            ListKind::Drains => Entry::Drain {
                cell,
                elevation: first,
                cond: second,
            },
            ListKind::Generals => Entry::General {
                cell,
                head: first,
                cond: second,
            },
        }
    }

    fn is_once(lists: ListKind) -> bool {
        false
    }

    fn suits(lists: ListKind, period: &Period, list: &[Entry]) -> bool {
        true
    }

    fn put(lists: ListKind, stresses: &mut Stresses, list: Shared<Entry>)
        ensures { stresses.new ≡ (kind_of lists).put stresses.old list }
    {
        match lists {
            ListKind::Wells => stresses.wells = list,
            ListKind::Rivers => stresses.rivers = list,
            ListKind::Drains => stresses.drains = list,
            ListKind::Generals => stresses.generals = list,
        }
    }
}
