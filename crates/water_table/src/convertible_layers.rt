// What LPF reads of convertible layers.
use decimal_input::dec::Dec;
use model_types::Listed;

/// The settings of convertible layers, beside the model: LAYTYP by layer, and SY, the specific yield, by cell. `sy` is empty
/// where no period is transient.
#[derive(Drop)]
pub struct ConvertibleLayers {
    pub laytyp: Listed<i64>,
    pub sy: Listed<Dec>,
}
