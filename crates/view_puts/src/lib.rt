//! Views of heads as pieces that are put to a sink.
#![tactic(auto)]

mod viewer;

pub use viewer::SinkViewer;
