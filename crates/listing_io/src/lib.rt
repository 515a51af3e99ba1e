//! The listing of a run as text, written and read.
#![tactic(auto)]

mod digits;
mod fault;
mod last_lines;
pub mod laws;
mod lines;
pub mod listing;
mod listing_reader;
mod listing_writer;
mod pair_lines;
mod pairs;
mod places;
mod step_reader;
mod view_writer;
mod words;

pub use fault::Fault;
pub use last_lines::{
    push_no_bound, write_no_bound, write_not_certified, write_not_gentle, write_refused,
    write_unfinished,
};
pub use lines::AllLines;
pub use listing::{ListedStep, Listing};
pub use listing_reader::{read_convertible_listing, read_listing};
pub use listing_writer::{head_pair, push_first_line, push_zones, write_first, write_step};
pub use pair_lines::{CellWord, Row, push_row, push_row_if, read_row, read_row_if};
pub use places::{
    cell_word, has_evt, push_place, push_time, push_time_line, push_two, side_word, term_word,
};
pub use step_reader::{read_bound, read_flows, read_title};
pub use view_writer::write_view;
