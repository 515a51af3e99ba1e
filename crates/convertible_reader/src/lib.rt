//! Models with convertible layers from their files: LPF with LAYTYP other than 0 and SY, and a whole model in reading order.
#![tactic(auto)]

mod layers;
mod lpf;
mod model;
mod settings;
mod yields;

pub use layers::YieldProperties;
pub use lpf::read_convertible_lpf;
pub use model::{read_convertible_model, read_named_convertible_model};
pub use settings::{LayerSettings, Options};
