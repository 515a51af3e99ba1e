// Each choice between two models has a history, and one alone.
ghost use Rattle.exact_histories.specs.{ChoicesHaveOneHistory, ModelsAreChosen};

/// Each choice between two models has a history, and any two are the same heads at all active cells, step by step.
pub fn choices_have_one_history()
    ensures { ChoicesHaveOneHistory }
{}

/// A model between two others gives choices between them, which its histories solve.
pub fn models_are_chosen()
    ensures { ModelsAreChosen }
{}
