// How the budget terms of a history lie.
ghost use Rattle.gentle_terms.specs.{HistoryTermsLieBetween, TermsAreInOrder};

/// Where each flow of a cell's own head is at most another one, so is each In, and the other way round each Out.
pub fn terms_are_in_order()
    ensures { TermsAreInOrder }
{}

/// The terms of every history of gentle heads that nearly solves the model lie between those at the listed heads of each step, where these have the signs.
pub fn history_terms_lie_between()
    ensures { HistoryTermsLieBetween }
{}
