// Laws of a plan's text. Each is the contract of an empty function.
ghost use Rattle.plan_listing.specs.{PlanListingsAreApart, PlanListingsAreNoListings, PlanListingsAreReadAgain, PlanListingsWereWritten};

/// The text written for a plan's steps is read as these steps.
#[tactic(auto, using(crate::proofs::Feeds::plan_listings_are_read_again))]
pub fn plan_listings_are_read_again()
    ensures { PlanListingsAreReadAgain }
{}

/// A text that is read is the one written for the steps read.
#[tactic(auto, using(crate::proofs::Steps::plan_listings_were_written))]
pub fn plan_listings_were_written()
    ensures { PlanListingsWereWritten }
{}

/// No text is read both as a plan's listing of two decks and as that of one deck.
#[tactic(auto, using(crate::proofs::Apart::plan_listings_are_apart))]
pub fn plan_listings_are_apart()
    ensures { PlanListingsAreApart }
{}

/// No text is read both as a plan's listing and as a listing of heads.
#[tactic(auto, using(crate::proofs::Apart::plan_listings_are_no_listings))]
pub fn plan_listings_are_no_listings()
    ensures { PlanListingsAreNoListings }
{}
