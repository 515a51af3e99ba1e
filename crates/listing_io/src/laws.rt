// Laws of the listing's text. Each is the contract of an empty function.
ghost use Rattle.listing_io.specs.{ConvertibleListingsAreApart, ConvertibleListingsAreReadAgain, ConvertibleListingsWereWritten, LinesReadExactly};
ghost use Rattle.listing_io.specs.{ListingsAreApart, ListingsAreReadAgain, ListingsWereWritten};

/// A line is read as the numbers that are written as this line, and as nothing else.
#[tactic(auto, using(crate::proofs::Exactly::lines_read_exactly))]
pub fn lines_read_exactly()
    ensures { LinesReadExactly }
{}

/// The text written for a model's steps is read as these steps.
#[tactic(auto, using(crate::proofs::Feeds::listings_are_read_again))]
pub fn listings_are_read_again()
    ensures { ListingsAreReadAgain }
{}

/// A text that is read is the one written for the steps read, except for a first line of version 1.
#[tactic(auto, using(crate::proofs::Steps::listings_were_written))]
pub fn listings_were_written()
    ensures { ListingsWereWritten }
{}

/// No text is read both as the listing for all models between two decks and as that of a model.
#[tactic(auto, using(crate::proofs::Walks::listings_are_apart))]
pub fn listings_are_apart()
    ensures { ListingsAreApart }
{}

/// The text written for the steps of a model with convertible layers is read as these steps.
#[tactic(auto, using(crate::proofs::Convertible::convertible_listings_are_read_again))]
pub fn convertible_listings_are_read_again()
    ensures { ConvertibleListingsAreReadAgain }
{}

/// A text that is read as a listing of a model with convertible layers is the one written for the steps read.
#[tactic(auto, using(crate::proofs::Convertible::convertible_listings_were_written))]
pub fn convertible_listings_were_written()
    ensures { ConvertibleListingsWereWritten }
{}

/// No text is read both as a listing of a model with convertible layers and as another one.
#[tactic(auto, using(crate::proofs::Convertible::convertible_listings_are_apart))]
pub fn convertible_listings_are_apart()
    ensures { ConvertibleListingsAreApart }
{}
