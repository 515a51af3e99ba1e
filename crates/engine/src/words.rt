// The words of the program, for a reader.
ghost use Rattle.run_puts.specs.{IsRun, NeverCut, PutsMore};
ghost use Rattle.engine.specs.{IsSaid, words_text};

use outside::Sink;
use run_puts::{Status, put_last};

// A line for each command, and one for each of its options.
const WORDS: &str = concat!(
    "run NAME: lists the heads, the budget and the zone flows of each time step of the model that the name file NAME describes\n",
    "  --digits S: conductances have S digits after the decimal point, 0 to 18; 12 without this word\n",
    "  --workers W: W threads settle each step, 1 to 64; 4 without this word\n",
    "  --rounds P: a step that P rounds do not settle ends the run, 1 to 4000000000; 1000000 without this word\n",
    "  --quick: certified bounds as soon as they are found, which may be less tight; not with --watch\n",
    "  --wide: wide limits, and floors and ceilings beyond the range of heads are cut\n",
    "  --to NAME2: bounds for every model between that of NAME and that of NAME2\n",
    "  --zones Z: the flows between the zones that the file Z gives the cells, too\n",
    "  --watch N: N views of the heads in each phase of a step, to standard error, 1 to 1000\n",
    "  --deck: first the text of the deck and of the zones, then the listing\n",
    "  --plan WELLS: what the wells of the file WELLS do, in the weather of NAME or in every one up to NAME2; not with --watch, --deck\n",
    "check NAME LISTING: says whether LISTING is certified for the model of NAME, or else where it fails first\n",
    "  --digits S: the digits of the run\n",
    "  --wide: wide limits, as the run had them\n",
    "  --to NAME2: LISTING is of every model between that of NAME and that of NAME2\n",
    "  --zones Z: LISTING has the flows between the zones of the file Z\n",
    "  --plan WELLS: LISTING is of what the wells of the file WELLS do\n",
    "  --convertible: LISTING is of gentle heads of a model with convertible layers; not with --to, --plan\n",
    "check --deck TEXT: says whether the listing in TEXT is certified for the deck or the two decks in TEXT, or else where it fails first\n",
    "  --digits S: the digits of the run\n",
    "  --wide: wide limits, as the run had them\n",
    "make SEED SIZE: makes a model of SIZE rows and columns from a seed, and puts a summary of its listing\n",
    "batch LIST: lists the models whose name files stand in the file LIST, one on a line\n",
    "  --digits S: as with run\n",
    "  --workers W: W models are listed at a time, each by one thread, 1 to 64; 4 without this word\n",
    "  --rounds P: as with run\n",
    "  --quick: as with run\n",
    "  --wide: as with run\n",
    "write NAME: puts the deck of the model of NAME in one spelling, one file after another\n",
    "  --wide: wide limits\n",
    "words: puts these lines\n",
);

/// Puts what each command and each option does.
pub(crate) fn put_words<K: Sink>(out: &mut K) -> Status
    ensures { PutsMore K.leads out.old out.new (IsRun (IsSaid words_text) NeverCut result) }
{
    put_last(out, WORDS.as_bytes(), Status::Ok)
}
