// Time steps and storage by the manual.
ghost use Rattle.flow_equations.specs.{StepsAreTheManuals, StoresByTheOption, StoresOverTheStep};

/// Steps grow by TSMULT from the manual's first one, are equal where it is 1, and sum to the period.
pub fn steps_of_a_period()
    ensures { StepsAreTheManuals }
{}

/// The storage of a step is the storage capacity over the step's length. With the option STORAGECOEFFICIENT it is Ss times
/// the area over that length; without, the thickness is a factor.
#[tactic(auto, using(crate::proofs::StepSums::storage_times_length, crate::proofs::StorageTerms::stores_by_option))]
pub fn storage_over_a_step()
    ensures length { StoresOverTheStep }
    ensures option { StoresByTheOption }
{}
