// What is read for a plan, beside its decks.
use model_types::Listed;
use plan_run::PlannedDecks;

/// The wells of a plan and the decks with them, and the zones of the decks' cells, if there is a zone file.
#[derive(Drop)]
pub struct PlanParts {
    pub wells: PlannedDecks,
    pub zones: Option<Listed<u32>>,
}
