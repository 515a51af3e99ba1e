// Which models, exact steps and choices lie between two others, and what the hull of two problems encloses.
ghost use Rattle.deck_span.specs.{AlikeLieBetween, BetweenAreAlike, HullsEnclose, ModelsGiveChoices, ModelsSolveChoices, OrderedHeadsLieBetween};
ghost use Rattle.deck_span.specs.{StepsLieBetween, DifferenceIsOne, SharedPackagesAreAlike};

/// Each of two models that are alike lies between the two; and where some model lies between two, the two are alike.
pub fn alike_lie_between()
    ensures lie { AlikeLieBetween }
    ensures alike { BetweenAreAlike }
{}

/// The hull of two problems encloses each exact step between those that the problems enclose.
pub fn hulls_enclose()
    ensures { HullsEnclose }
{}

/// Each exact step of a model between two others lies between theirs.
#[tactic(auto, using(crate::proofs::StepsBetween::steps_between))]
pub fn steps_lie_between()
    ensures { StepsLieBetween }
{}

/// An entry of CHD whose two heads lie between those of two others, in one order, lies between the two.
#[tactic(auto, using(crate::proofs::GivenHeadsBetween::ordered_between))]
pub fn ordered_heads_lie_between()
    ensures { OrderedHeadsLieBetween }
{}

/// A model between two others gives a choice between them for each time step, which its solutions solve.
pub fn models_give_choices()
    ensures give { ModelsGiveChoices }
    ensures solve { ModelsSolveChoices }
{}

/// Two models are alike exactly where they share each package.
pub fn shared_packages_are_alike()
    ensures { SharedPackagesAreAlike }
{}

/// Two models have at most one first difference.
pub fn one_difference()
    ensures { DifferenceIsOne }
{}
