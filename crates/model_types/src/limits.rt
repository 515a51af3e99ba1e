// The limits that a model is read by.
ghost use Rattle.std.specs.Prelude.{◌≡◌, ◌≤◌};
ghost use Rattle.model_types.specs.{most_layers, most_in_row, most_cells, most_entries, most_bytes};
ghost use Rattle.model_types.specs.declared.limits.Limits.TheVariants.{Wide};

/// The most cells of a grid, and the most entries of a list for a stress period, by the wide limits.
pub const WIDE_COUNT: u32 = 4_194_304;

/// The limits that a model is read by: the plain ones, or the wide ones for larger models. What is known of a model that
/// was read holds by the wide ones, so nothing above the readers depends on which they were.
#[derive(Clone, Copy)]
pub enum Limits {
    Plain,
    Wide,
}

impl Limits {
    /// The most layers.
    pub fn layers(self) -> u32
        ensures most { result ≡ most_layers self }
        ensures few { result ≤ 1024 }
    {
        match self {
            Limits::Plain => 64,
            Limits::Wide => 1024,
        }
    }

    /// The most cells in a row, and in a column.
    pub fn in_row(self) -> u32
        ensures most { result ≡ most_in_row self }
        ensures few { result ≤ 4096 }
    {
        match self {
            Limits::Plain => 1024,
            Limits::Wide => 4096,
        }
    }

    /// The most cells of a grid.
    pub fn cells(self) -> u32
        ensures most { result ≡ most_cells self }
        ensures few { result ≤ most_cells Wide }
    {
        match self {
            Limits::Plain => 65_536,
            Limits::Wide => WIDE_COUNT,
        }
    }

    /// The most bytes of a file.
    pub fn bytes(self) -> u64
        ensures { result ≡ most_bytes self }
    {
        match self {
            Limits::Plain => 67_108_864,
            Limits::Wide => 1_073_741_824,
        }
    }

    /// The most entries of a list for a stress period.
    pub fn entries(self) -> u32
        ensures most { result ≡ most_entries self }
        ensures few { result ≤ most_entries Wide }
    {
        match self {
            Limits::Plain => 65_536,
            Limits::Wide => WIDE_COUNT,
        }
    }
}
