ghost use Rattle.std.specs.Prelude.{◌≡◌, ℕ, map, Some, true};
ghost use Rattle.outside.specs.{WordsMay, FileSet};
ghost use Rattle.engine.specs.{bytes_asked, case_of, files_named, folder_use, IsProgramEnd, IsRunResult, ReadsNothing, sink_use, views_in};
ghost use Rattle.command_line.specs.{order_of_words};
ghost use Rattle.engine.specs.Watched.{Watched};
ghost use Rattle.std.specs.Process.{exit_status};

use crate::batching::put_batch;
use crate::running::run_order;
use check_run::laws::one_verdict;
use command_line::{Order, read_order};
use deck_span::laws::one_difference;
use gentle_run::laws::one_verdict as one_gentle_verdict;
use listing_run::laws::one_listing;
use outside::{Folder, Gate, Sink};
use plan_check::laws::one_plan_verdict;
use plan_run::laws::{one_plan_listing, plan_listings_enclose};
use run_puts::Status;
use std::alloc::Global;
use std::process::ExitCode;
use std::sync::Wait;
use std::thread::Threads;

/// Does what the words ask for, as `run_one` does, and `batch LIST` too: reads the list, then the model of each of its
/// names, in order; runs the jobs by workers, each job on one thread; and puts the text of each, in the order of the
/// list, and END. Workers pass the gate before each job. A refusal of a name's files is its whole text.
pub fn run<R: Threads + Wait + Sync, F: Folder, K: Sink + Send, W: Sink + Send, G: Gate + Sync>(
    rt: &R,
    alloc: Global,
    words: &[&str],
    folder: &mut F,
    out: &mut K,
    side: &mut W,
    gate: &G,
) -> Status
    // Each file that the words name may be asked for. The folder is asked for no others but those that words of its files
    // name, since `read_file` requires that.
    requires may { WordsMay (F.may folder.old) (files_named (map (λ w. w.now) words.now)) }

    // Files that agree with all results of the folder agreed with it before.
    ensures since { (files : FileSet) → F.agrees folder.new files → F.agrees folder.old files }

    // A folder of which no file is read isn't asked.
    ensures unasked { ReadsNothing (order_of_words (map (λ w. w.now) words.now)) → folder.new ≡ folder.old }

    // The headline and all else that a run has come to.
    ensures runs { IsRunResult (order_of_words (map (λ w. w.now) words.now))
        (folder_use F.Folder folder.old folder.new) (sink_use W.Sink side.old side.new) (sink_use K.Sink out.old out.new) result }
{
    one_listing();
    one_verdict();
    one_difference();
    plan_listings_enclose();
    one_plan_listing();
    one_plan_verdict();
    one_gentle_verdict();
    match read_order(alloc, words) {
        Ok(order) => match order {
            Order::Batch(asked) => {
                let status = put_batch(rt, alloc, asked, folder, out, gate);
                folder.some_agree();
                status
            }
            _ => {
                let status = run_order(rt, alloc, Ok(order), folder, out, side, gate);
                folder.some_agree();
                status
            }
        },
        Err(fault) => {
            let status = run_order(rt, alloc, Err(fault), folder, out, side, gate);
            folder.some_agree();
            status
        }
    }
}

/// Does what the words ask, as `run` does, and ends with the number of its status: where that is 0, the headline holds, and
/// the views of a watched run are those of all its steps. A batch that ends with 0, 2, 3 or 4 has put the text of each of
/// its models, or its list is refused.
pub fn serve<R: Threads + Wait + Sync, F: Folder, K: Sink + Send, W: Sink + Send, G: Gate + Sync>(
    rt: &R,
    alloc: Global,
    words: &[&str],
    folder: &mut F,
    out: &mut K,
    side: &mut W,
    gate: &G,
) -> ExitCode
    // Each file that the words name may be asked for. The folder is asked for no others but those that words of its files
    // name, since `read_file` requires that.
    requires may { WordsMay (F.may folder.old) (files_named (map (λ w. w.now) words.now)) }
    // It reads at most as many bytes of a file as the limits say that the words ask for.
    requires limit { (files : FileSet) → F.agrees folder.old files → files.limit ≡ bytes_asked (map (λ w. w.now) words.now) }
    ensures serves { IsProgramEnd (map (λ w. w.now) words.now)
        (folder_use F.Folder folder.old folder.new) (sink_use W.Sink side.old side.new) (sink_use K.Sink out.old out.new) (exit_status result) }
    ensures watched { exit_status result ≡ 0 → (n : ℕ) → views_in (order_of_words (map (λ w. w.now) words.now)) ≡ Some n → (files : FileSet) →
        F.agrees folder.new files → Watched true (case_of (order_of_words (map (λ w. w.now) words.now)) files) n (λ puts. W.leads side.old puts side.new) }
{
    let status = run(rt, alloc, words, folder, out, side, gate);
    ExitCode::from(status.code())
}
