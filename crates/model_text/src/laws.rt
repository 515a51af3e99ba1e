// A model is read as written. Each law is the contract of an empty function.
ghost use Rattle.model_text.specs.{DeckNamesAreNames, ModelsReadAsWritten, RchReadsAsWritten, EvtReadsAsWritten, ListPackagesReadAsWritten, DisReadsAsWritten};
ghost use Rattle.model_text.specs.{BasReadsAsWritten, LpfReadsAsWritten, DecksAreReadAgain, ModelsReadAreWritable, ModelsReadAreReadAsWritten, ThreeCells};
ghost use Rattle.model_text.specs.{NoLineIsAMark, ZonesReadAsWritten};

/// The files of a model, with good names and at most 64 MiB each, are read as the model.
#[tactic(auto, using(crate::proofs::ModelTexts::model_reads))]
pub fn models_read_as_written()
    ensures { ModelsReadAsWritten }
{}

/// The names of the files of a deck that is put are good names.
#[tactic(auto, using(crate::proofs::FileTexts::good_names))]
pub fn deck_names_are_names()
    ensures { DeckNamesAreNames }
{}

/// The file of RCH is read as the recharge that was written.
#[tactic(auto, using(crate::proofs::AreaFileTexts::rch_reads))]
pub fn rch_reads_as_written()
    ensures { RchReadsAsWritten }
{}

/// The file of EVT is read as the evapotranspiration that was written.
#[tactic(auto, using(crate::proofs::AreaFileTexts::evt_reads))]
pub fn evt_reads_as_written()
    ensures { EvtReadsAsWritten }
{}

/// The file of each list package is read as the lists that were written.
#[tactic(auto, using(crate::proofs::ListTexts::list_packages))]
pub fn list_packages_read_as_written()
    ensures { ListPackagesReadAsWritten }
{}

/// The file of the discretization is read as the grid and the stress periods that were written.
#[tactic(auto, using(crate::proofs::DisTexts::dis_reads))]
pub fn dis_reads_as_written()
    ensures { DisReadsAsWritten }
{}

/// The file of the basic package is read as the IBOUND and STRT that were written.
#[tactic(auto, using(crate::proofs::BasTexts::bas_reads))]
pub fn bas_reads_as_written()
    ensures { BasReadsAsWritten }
{}

/// The file of the layer-property flow package is read as the properties that were written.
#[tactic(auto, using(crate::proofs::LpfTexts::lpf_reads))]
pub fn lpf_reads_as_written()
    ensures { LpfReadsAsWritten }
{}

/// A model that is read is writable, where each IBOUND has at most 18 digits.
pub fn models_read_are_writable()
    ensures { ModelsReadAreWritable }
{}

/// Written anew, such a model is read as itself.
#[tactic(auto, using(crate::proofs::ModelForms::read_again))]
pub fn models_read_are_read_as_written()
    ensures { ModelsReadAreReadAsWritten }
{}

/// So is the deck of such a model, with the names that `heads write` gives its files.
#[tactic(auto, using(crate::proofs::ModelForms::deck_reads))]
pub fn decks_are_read_again()
    ensures { DecksAreReadAgain }
{}

/// The file of zones is read as the zones that were written.
pub fn zones_read_as_written()
    ensures { ZonesReadAsWritten }
{}

/// The text of a deck is cut at no line of its files.
#[tactic(auto, using(crate::proofs::MarkTexts::none_is_marked))]
pub fn no_line_is_a_mark()
    ensures { NoLineIsAMark }
{}

/// A worked model is writable, and files of a deck are read as it.
#[tactic(auto, using(crate::proofs::WorkedForms::three_cells_have_form))]
pub fn three_cells()
    ensures { ThreeCells }
{}
