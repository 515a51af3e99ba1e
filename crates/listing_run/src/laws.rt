// Laws of listings, from those of the steps.
ghost use Rattle.listing_run.specs.{ListingIsOne, ListingExcludesRefusal, SettledListingIsClosed, RefusalIsOne, WideKeepsListings};

use deck_problems::laws::start_heads;
use step_chain::laws::{
    heads_fit, no_step_beside_a_refusal, one_refusal, one_step, wide_keeps_steps,
};

/// A model has at most one listing of settled pairs, and a model with a whole listing has no other end, except rounds that don't settle a step.
pub fn one_listing()
    ensures one { ListingIsOne }
    ensures bound { ListingExcludesRefusal }
    ensures closed { SettledListingIsClosed }
    ensures refusal { RefusalIsOne }
{
    start_heads();
    one_step();
    no_step_beside_a_refusal();
    one_refusal();
    heads_fit();
}

/// What is listed with plain limits is listed with wide ones, so by `one_listing` a run of settled pairs lists the same.
pub fn wide_keeps_listings()
    ensures { WideKeepsListings }
{
    wide_keeps_steps();
}
