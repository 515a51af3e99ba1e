// Laws of the problems of one deck, or of two. Each is the contract of an empty function, but for the laws below that
// it calls.
ghost use Rattle.deck_problems.specs.{ProblemsAreAlike, ProblemFits, ProblemEncloses, ConstantPairIsOne, ConstantPairFits, ConstantPairEncloses};
ghost use Rattle.deck_problems.specs.{StartHeadsAreOne, StartHeadsFit, StartHeadsEnclose};

/// The problems of two models that are alike are alike.
pub fn problems_are_alike()
    ensures { ProblemsAreAlike }
{}

/// A problem that the definition gives meets the conditions on problems, and encloses each choice of the step.
pub fn problems_fit()
    ensures fit { ProblemFits }
    ensures enclose { ProblemEncloses }
{
    problem_builder::laws::problems_fit();
}

/// A constant-head cell has one pair at a time, of heads in range, and it encloses the head of each choice.
pub fn constant_pairs()
    ensures one { ConstantPairIsOne }
    ensures fit { ConstantPairFits }
    ensures encloses { ConstantPairEncloses }
{}

/// The bounds of the starting heads are one list, of heads in range, and enclose all starting heads of the decks.
pub fn start_heads()
    ensures one { StartHeadsAreOne }
    ensures fit { StartHeadsFit }
    ensures enclose { StartHeadsEnclose }
{}
