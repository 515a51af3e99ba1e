// Laws of what is defined. Each is the contract of an empty function, but for the laws below that it calls.
ghost use Rattle.engine.specs.{OneListingIsCertified, OneSpanIsCertified, WrittenIsCertified, StorageHolds, WorkersChangeNoCase, DeckAndListingAreStated};
ghost use Rattle.engine.specs.{DecksAndListingAreStated, SameModelHasSameListing, DeckHasSameListing, SameDeckHasSameModel, OneSpanTextIsCertified};
ghost use Rattle.engine.specs.{OneTextIsCertified};

use check_run::laws::{run_is_certified, run_is_read_again};

/// Where each variable cell of a step has a storage of at least one unit, neither NoBarrierLow nor NoBarrierHigh is
/// the step's refusal.
pub fn storage_holds()
    ensures { StorageHolds }
{}

/// What a run defines is the same by any number of workers, watched or not; and so is what a plan or a batch defines.
pub fn workers_change_no_case()
    ensures { WorkersChangeNoCase }
{}

/// `check` certifies what `run` writes, of one deck or of two.
pub fn written_is_certified()
    ensures { WrittenIsCertified }
{
    run_is_certified();
    run_is_read_again();
}

/// What a run, with or without `--quick`, is promised to have written, `check` certifies: of one deck, and of two.
pub fn one_listing_is_certified()
    ensures one { OneListingIsCertified }
    ensures two { OneSpanIsCertified }
{
    written_is_certified();
}

/// What a run with `--deck` put, `check --deck` certifies, from the bytes alone: of one deck, and of two.
pub fn texts_are_certified()
    ensures one { OneTextIsCertified }
    ensures two { OneSpanTextIsCertified }
{
    run_is_certified();
    run_is_read_again();
}

/// What `write` and then `run` put of the same files is the text of a deck and then a listing, and every history of this deck's
/// model lies within the listing: of one deck, and of two.
pub fn deck_and_listing_are_stated()
    ensures one { DeckAndListingAreStated }
    ensures two { DecksAndListingAreStated }
{}

/// Files that read as one model have one listing: so a deck that `write` put has the listing of the files that it was written from.
pub fn same_model_has_same_listing()
    ensures model { SameModelHasSameListing }
    ensures deck { DeckHasSameListing }
{}

/// Two models that are read, and whose decks have the same files, are one model.
pub fn same_deck_has_same_model()
    ensures { SameDeckHasSameModel }
{}
