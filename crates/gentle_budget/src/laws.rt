// What the budget at listed heads says of histories.
ghost use Rattle.gentle_budget.specs.{BudgetsHold};

/// The budget at listed heads that hold is that of every history whose terms lie between those at the listed heads.
pub fn budgets_hold()
    ensures { BudgetsHold }
{}
