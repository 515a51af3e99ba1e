// The decks of a text.
use crate::rest::Rest;
use crate::text_file::TextFile;
use model_types::{FlowModel, Listed};

/// A deck's part of a text: its files, the model and the zones that they are read as, and what follows the part, with the
/// number of its first line.
#[derive(Drop)]
pub struct Part<'a> {
    pub files: Listed<TextFile<'a>>,
    pub model: FlowModel,
    pub zones: Option<Listed<u32>>,
    pub rest: Rest<'a>,
    pub line: u32,
}

/// The decks of a text.
#[derive(Drop)]
pub struct Parts<'a> {
    pub first: Part<'a>,
    pub second: Option<Part<'a>>,
}
