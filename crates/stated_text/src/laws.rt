// Laws of texts. Each is the contract of an empty function.
ghost use Rattle.stated_text.specs.{CutsAreJoined, DecksAreCut, DecksAreReadBack, FirstDifferences, ListingsAreReadBack, OneTextOneModel};

/// The text of a deck is cut into the files of the deck, whatever follows it.
#[tactic(auto, using(crate::proofs::DeckCuts::decks_are_cut))]
pub fn decks_are_cut()
    ensures { DecksAreCut }
{}

/// One text says one model, and what follows it.
pub fn one_text_one_model()
    ensures { OneTextOneModel }
{}

/// What is cut, joined again, is what was there.
#[tactic(auto, using(crate::proofs::Joining::cuts_are_joined))]
pub fn cuts_are_joined()
    ensures { CutsAreJoined }
{}

/// Two texts are compared up to the first line at which they differ.
#[tactic(auto, using(crate::proofs::DueTexts::first_differences))]
pub fn first_differences()
    ensures { FirstDifferences }
{}

/// The text of decks is read back as these decks.
#[tactic(auto, using(crate::proofs::ReadBack::decks_are_read_back))]
pub fn decks_are_read_back()
    ensures { DecksAreReadBack }
{}

/// The listing after decks is read back as its steps.
pub fn listings_are_read_back()
    ensures { ListingsAreReadBack }
{}
