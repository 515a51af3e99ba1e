// Histories of two plans. Each law is the contract of an empty function.
ghost use Rattle.plan_histories.specs.{MembersKeepWellsApart, PairsAreHistories, PairsHaveOne, PlannedSteps, ReadersKeepWellsApart};

/// Of two plans' histories in one weather the base plan's is one between the two decks, and the other one between the two decks with the plan's wells.
pub fn pairs_are_histories()
    ensures { PairsAreHistories }
{}

/// Where the two decks have all their steps, without the plan's wells and with them, each choice of weathers has one history of each plan.
pub fn pairs_have_one()
    ensures { PairsHaveOne }
{}

/// The exact step of a model with a plan's wells is that of the model in the same weather, with the plan's wells after its flows.
pub fn planned_steps()
    ensures { PlannedSteps }
{}

/// The lists of rivers, drains and general heads hold no wells: of a model that files are read as, and of each model between two decks, where the first
/// deck's lists hold none.
pub fn wells_keep_apart()
    ensures readers { ReadersKeepWellsApart }
    ensures members { MembersKeepWellsApart }
{}
