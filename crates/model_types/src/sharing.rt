// Threads may share a model.
use crate::model::FlowModel;

fn shares<T: Send + Sync>() {}

/// A model is `Send` and `Sync`: several threads may read one model, including the lists that periods share.
pub fn models_are_shared() {
    shares::<FlowModel>()
}
