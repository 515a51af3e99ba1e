// Laws that the layers above use. Each is the contract of an empty function.
ghost use Rattle.certificate_check.specs.{SettledPairEncloses, CertificateEncloses, FailsOnlyWhereCut, CertificateExcludesRefusal, RangeRefusalIsOne};
ghost use Rattle.certificate_check.specs.{ClampedPairEncloses};

/// Where each component is anchored or carried, the settled pair over a barrier that encloses every solution encloses every solution, without a check.
#[tactic(auto, using(crate::proofs::Certified::settled_encloses))]
pub fn settled_pair_encloses()
    ensures { SettledPairEncloses }
{}

/// Where each component is anchored or carried, a certificate over a cut barrier encloses every solution.
#[tactic(auto, using(crate::proofs::Cut::words_enclose))]
pub fn certificate_encloses()
    ensures { CertificateEncloses }
{}

/// A certificate over the clamped barrier can fail over the cut one only at a cell whose floor or ceiling was cut.
#[tactic(auto, using(crate::proofs::Cut::fails_only_where_cut))]
pub fn fails_only_where_cut()
    ensures { FailsOnlyWhereCut }
{}

/// A certificate over the cut barrier has no refusal for the range of heads.
#[tactic(auto, using(crate::proofs::Cut::excludes_refusal))]
pub fn no_certificate_beside_a_refusal()
    ensures { CertificateExcludesRefusal }
{}

/// Heads have at most one refusal for the range of heads.
pub fn one_range_refusal()
    ensures { RangeRefusalIsOne }
{}

/// The settled pair over the clamped barrier encloses every solution in the range of heads, whether it is refused or not.
#[tactic(auto, using(crate::proofs::Cut::clamped_encloses))]
pub fn clamped_pair_encloses()
    ensures { ClampedPairEncloses }
{}
