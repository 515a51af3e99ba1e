// The decks of a run.
use model_types::FlowModel;

/// The models of a run's decks. With a second one, the run is one of all models between the two.
pub struct Decks {
    pub first: FlowModel,
    pub second: Option<FlowModel>,
}

impl Drop for Decks {
    fn drop(self) {
        let Decks {
            first: _,
            second: _,
        } = self;
    }
}
