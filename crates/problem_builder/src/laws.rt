// Problems meet their conditions. Each law is the contract of an empty function.
ghost use Rattle.problem_builder.specs.{ProblemFits, StartHeadsFit, ConstantPairFits, ConstantPairEncloses, ModelsAreBuildable};

/// A problem that the definition gives meets the conditions on problems.
pub fn problems_fit()
    ensures { ProblemFits }
{}

/// The pair of a constant-head cell at a time is of heads in range, and encloses the exact head.
pub fn constant_pairs()
    ensures fit { ConstantPairFits }
    ensures encloses { ConstantPairEncloses }
{}

/// The bounds of STRT are heads in range.
#[tactic(auto, using(crate::proofs::CellFits::starts_fit))]
pub fn start_heads_fit()
    ensures { StartHeadsFit }
{}

/// The premises of the builder's calls can be met: each valid model meets them.
pub fn models_are_buildable()
    ensures { ModelsAreBuildable }
{}
