ghost use Rattle.std.specs.Prelude.{◌≡◌, map, IfOk, Option, Some};
ghost use Rattle.outside.specs.{WordsMay, FileSet};
ghost use Rattle.engine.specs.{files_named, files_of, but_batch, IsOrder, ReadsNothing, IsRunResult, MayRead, Serves, folder_use, sink_use};
ghost use Rattle.command_line.specs.{asked_of, text_if, wanted_by, order_of_words, Run, Wanted};
ghost use Rattle.run_puts.specs.{PutsMore};

use crate::checking::check;
use crate::convertible_checking::check_convertible;
use crate::ending::end_reading;
use crate::listing::put_listing;
use crate::making::put_made;
use crate::plan_checking::check_plan;
use crate::planning::run_plan;
use crate::tasks::read_task;
use crate::text_check::check_text;
use crate::words::put_words;
use crate::writing::write;
use check_run::laws::one_verdict;
use command_line::{Order, RunOrder, WordsFault, read_order};
use deck_span::laws::one_difference;
use gentle_run::laws::one_verdict as one_gentle_verdict;
use listing_run::laws::one_listing;
use outside::{Folder, Gate, Sink};
use plan_check::laws::one_plan_verdict;
use plan_run::laws::{one_plan_listing, plan_listings_enclose};
use run_puts::{Status, put_last, put_memory};
use std::alloc::Global;
use std::thread::Threads;

const USAGE: &[u8] =
    b"USAGE: heads run NAME [--digits S] [--workers W] [--rounds P] [--zones Z] [--watch N] | heads check NAME LISTING [--digits S] | heads make SEED SIZE | heads batch LIST [--digits S] [--workers W] [--rounds P]\n";

/// Does what the words ask for. `run NAME` reads the model of that name file from the folder, and the zones of its cells
/// if the words name a zone file, and puts its listing to `out`, step by step. `make SEED SIZE` makes a model, without the
/// folder, and puts the summary of its listing. `check NAME LISTING` reads the model and a listing of it, whoever wrote
/// it, and puts whether it is certified, or else the first place that fails. With `--to NAME2` both read a second deck too,
/// compare it with the first, and list or check bounds for all models between the two. With `--deck` a run puts the text of its
/// decks first, as one piece. With `--plan WELLS` it puts what these wells do, and a check is of a listing of that. With `--convertible` a
/// check is of a listing of gentle heads of a model with convertible layers. `write NAME`
/// reads the model and puts its deck in one spelling. `check --deck TEXT` reads a text of
/// decks, zones and a listing, and puts whether the listing is certified. `words` puts what each word does. With `--wide` the
/// limits of the model are wide ones. Workers in threads settle each step, and pass the gate before each turn; a check has
/// none. With `--watch N` one more seat makes N views of the heads in each phase, and each is put to `side` as one piece, up
/// to the first put that fails; the run then ends, with WriteFault if a write failed. For a batch, which only `run` does, it
/// puts the usage line.
pub fn run_one<R: Threads + Sync, F: Folder, K: Sink + Send, W: Sink + Send, G: Gate + Sync>(
    rt: &R,
    alloc: Global,
    words: &[&str],
    folder: &mut F,
    out: &mut K,
    side: &mut W,
    gate: &G,
) -> Status
    // Each file that the words name may be asked for. The folder is asked for no others but those that words of its files
    // name, since `read_file` requires that.
    requires may { WordsMay (F.may folder.old) (files_named (map (λ w. w.now) words.now)) }

    // Files that agree with all results of the folder agreed with it before.
    ensures since { (files : FileSet) → F.agrees folder.new files → F.agrees folder.old files }

    // A folder of which no file is read isn't asked.
    ensures unasked { ReadsNothing (but_batch (order_of_words (map (λ w. w.now) words.now))) → folder.new ≡ folder.old }

    // The headline and all else that a run has come to.
    ensures runs { IsRunResult (but_batch (order_of_words (map (λ w. w.now) words.now)))
        (folder_use F.Folder folder.old folder.new) (sink_use W.Sink side.old side.new) (sink_use K.Sink out.old out.new) result }
{
    one_listing();
    one_verdict();
    one_difference();
    plan_listings_enclose();
    one_plan_listing();
    one_plan_verdict();
    one_gentle_verdict();
    let status = run_order(rt, alloc, read_order(alloc, words), folder, out, side, gate);
    folder.some_agree();
    status
}

// Does what was read of the words, but a batch.
pub(crate) fn run_order<
    R: Threads + Sync,
    F: Folder,
    K: Sink + Send,
    W: Sink + Send,
    G: Gate + Sync,
>(
    rt: &R,
    alloc: Global,
    read: Result<Order<'_>, WordsFault>,
    folder: &mut F,
    out: &mut K,
    side: &mut W,
    gate: &G,
) -> Status
    requires may { IfOk read (λ order. WordsMay (F.may folder.old) (files_of (wanted_by order))) }
    ensures since { (files : FileSet) → F.agrees folder.new files → F.agrees folder.old files }
    ensures unasked { (order : Option Wanted) → IsOrder read.entry order → ReadsNothing order → folder.new ≡ folder.old }
    ensures serves { (order : Option Wanted) → IsOrder read.entry order → PutsMore K.leads out.old out.new
        (Serves order (folder_use F.Folder folder.old folder.new) (sink_use W.Sink side.old side.new) result) }
{
    match read {
        Ok(order) => match order {
            Order::Run(asked) => run_listing(rt, alloc, asked, folder, out, side, gate),
            Order::Plan(asked) => run_plan(rt, alloc, asked, folder, out, gate),
            Order::Check(asked) => check(alloc, asked, folder, out),
            Order::CheckPlan(asked) => check_plan(alloc, asked, folder, out),
            Order::CheckConvertible(asked) => check_convertible(alloc, asked, folder, out),
            Order::Make(asked) => put_made(rt, alloc, asked, out, gate),
            Order::Write { limits, name } => write(alloc, limits, name, folder, out),
            Order::Words => put_words(out),
            Order::CheckText(asked) => check_text(alloc, asked, folder, out),
            Order::Batch(_) => put_last(out, USAGE, Status::Usage),
        },
        Err(WordsFault::Usage) => put_last(out, USAGE, Status::Usage),
        Err(WordsFault::Memory) => put_memory(out),
    }
}

/// Reads a deck of the folder, or two, and the zones of its cells; and puts the listing of the deck, or of all models between
/// the two.
fn run_listing<'a, R: Threads + Sync, F: Folder, K: Sink + Send, W: Sink + Send, G: Gate + Sync>(
    rt: &R,
    alloc: Global,
    asked: RunOrder<'a>,
    folder: &mut F,
    out: &mut K,
    side: &mut W,
    gate: &G,
) -> Status
    requires may { MayRead (F.may folder.old) (asked_of asked).name (text_if asked.to) (asked_of asked).zones }
    ensures since { (files : FileSet) → F.agrees folder.new files → F.agrees folder.old files }
    ensures serves { PutsMore K.leads out.old out.new (Serves (Some (Run (asked_of asked.entry) (text_if asked.entry.to)))
        (folder_use F.Folder folder.old folder.new) (sink_use W.Sink side.old side.new) result) }
{
    match read_task(alloc, folder, asked) {
        Ok(task) => {
            let status = put_listing(rt, alloc, asked, &task, out, side, gate);
            // one call, so that the proof has no part for each of its fields
            drop(task);
            status
        }
        Err(fault) => end_reading(alloc, fault, out),
    }
}
