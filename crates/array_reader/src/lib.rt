//! Arrays of numbers: plain lists, and layers after control records, in this file or a named one.
#![tactic(auto)]

mod arrays;
mod control;
mod items;
mod keyword;
mod keywords;
mod laws;
mod layers;
mod line_items;
mod lists;
mod numbers;
mod plain;
mod zeros;

pub use arrays::read_array;
pub use control::{Control, control_record};
pub use items::{integer, number, number_refused, value_item};
pub use keywords::has_keyword;
pub use laws::{integers_follow_the_grammar, numbers_follow_the_grammar, products_are_exact};
pub use layers::{layer_or, read_int_layer, read_layer, read_layers, read_reals};
pub use line_items::{name_of, next_line};
pub use lists::{append, constants, free_list, free_refused, free_rows, next_value, values};
pub use numbers::{Value, short_integer};
pub use plain::{plain_ints, plain_reals};
pub use zeros::{zero_item, zero_list};
