//! The layer-property flow package: conductivities, specific storage, and the vertical conductivity of beds.
#![tactic(auto)]

mod layer;
mod model;
mod settings;

pub use layer::{Layer, Properties, add_layer, properties_of};
pub use model::{Contents, is_transient, read_lpf};
pub use settings::Settings;
