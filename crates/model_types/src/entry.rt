// The entries of list packages.
use crate::grid::CellId;
use decimal_input::dec::Dec;

/// An entry of a WEL, RIV, DRN or GHB list: the cell, and the package's numbers.
#[derive(Clone, Copy)]
pub enum Entry {
    Well {
        cell: CellId,
        q: Dec,
    },
    River {
        cell: CellId,
        stage: Dec,
        cond: Dec,
        bottom: Dec,
    },
    Drain {
        cell: CellId,
        elevation: Dec,
        cond: Dec,
    },
    General {
        cell: CellId,
        head: Dec,
        cond: Dec,
    },
}

/// An entry of a CHD list: the cell, and its heads at the start and at the end of the stress period.
#[derive(Clone, Copy)]
pub struct Given {
    pub cell: CellId,
    pub shead: Dec,
    pub ehead: Dec,
}
