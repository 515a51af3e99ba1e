// What the verdict on a listing says.
ghost use Rattle.gentle_run.specs.{CertifiedHasHistory, CertifiedIsEnclosed, VerdictIsOne};

/// A listing has at most one verdict.
pub fn one_verdict()
    ensures { VerdictIsOne }
{}

/// Every history of gentle heads that nearly solves the model lies within a certified listing.
pub fn certified_is_enclosed()
    ensures { CertifiedIsEnclosed }
{}

/// And there is one, as close to solving the model as is wanted.
pub fn certified_has_history()
    ensures { CertifiedHasHistory }
{}
