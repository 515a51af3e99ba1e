// The jobs of a batch, read from its list and the files of its models.
ghost use Rattle.std.specs.Prelude.{◌≡◌, ◌≤◌, length, map, All, IfOk};
ghost use Rattle.outside.specs.{WordsMay, IsGoodName, folder_name, FileSet, ReadsOn};
ghost use Rattle.listing_run.specs.{IsTask};
ghost use Rattle.command_line.specs.{batch_of};
ghost use Rattle.engine.specs.{AreTasks, IsBatchRead, job_of, NeverRefused, HasNames};

use crate::job::Job;
use crate::reading::read_file;
use batch_list::read_list;
use command_line::BatchOrder;
use deck_problems::Decks;
use listing_run::Task;
use model_reader::read_named_model;
use outside::{Folder, InputFault, Name};
use std::alloc::Global;

/// Reads the model of a name. A refusal of its files is the job's own, and no fault of the reading.
fn read_job<'a, F: Folder>(
    alloc: Global,
    folder: &mut F,
    asked: BatchOrder<'a>,
    name: &Name,
) -> Result<Job, InputFault>
    requires name { IsGoodName name.now }
    requires may { F.may folder.old (folder_name name.now) }
    ensures folder { ReadsOn F.Folder folder.old folder.new result }
    ensures never { NeverRefused result }
    ensures reads { (files : FileSet) → F.agrees folder.new files → IfOk result (λ job. job ≡ job_of (batch_of asked.entry) files name.now) }
    ensures task { IfOk result (λ job. IfOk job.read IsTask) }
{
    let copy = Name::new(alloc, name.as_str())?;
    match read_named_model(alloc, asked.limits, name.as_str(), folder) {
        Ok(model) => Ok(Job {
            name: copy,
            read: Ok(Task {
                limits: asked.limits,
                decks: Decks {
                    first: model,
                    second: None,
                },
                digits: asked.digits,
                zones: None,
                rounds: asked.rounds,
                quick: asked.quick,
            }),
        }),
        Err(InputFault::Refused(refusal)) => Ok(Job {
            name: copy,
            read: Err(refusal),
        }),
        Err(InputFault::ReadFault) => Err(InputFault::ReadFault),
        Err(InputFault::Memory) => Err(InputFault::Memory),
    }
}

/// Reads the models of the names, in order.
fn read_jobs<'a, F: Folder>(
    alloc: Global,
    folder: &mut F,
    asked: BatchOrder<'a>,
    names: &[Name],
) -> Result<Vec<Job>, InputFault>
    requires names { All IsGoodName names.now }
    requires may { WordsMay (F.may folder.old) names.now }
    ensures folder { ReadsOn F.Folder folder.old folder.new result }
    ensures never { NeverRefused result }
    ensures reads { (files : FileSet) → F.agrees folder.new files →
        IfOk result (λ jobs. jobs.items ≡ map (job_of (batch_of asked.entry) files) names.now) }
    ensures tasks { IfOk result (λ jobs. AreTasks jobs.items) }
    ensures whole { IfOk result (λ jobs. length jobs.items ≡ length names.now) }
{
    let mut jobs = Vec::with_capacity(alloc, names.len())?;
    for name in names {
        let job = read_job(alloc, folder, asked, name)?;
        jobs.push(job)?;
    }
    Ok(jobs)
}

/// The names of a batch's list.
fn read_names<'a, F: Folder>(
    alloc: Global,
    folder: &mut F,
    asked: BatchOrder<'a>,
) -> Result<Vec<Name>, InputFault>
    requires { F.may folder.old (folder_name asked.list.now) }
    ensures folder { ReadsOn F.Folder folder.old folder.new result }
    ensures reads { (files : FileSet) → F.agrees folder.new files → HasNames (batch_of asked.entry) files result }
    ensures may { IfOk result (λ names. WordsMay (F.may folder.new) names.items) }
    ensures few { IfOk result (λ names. length names.items ≤ 1000) }
    ensures good { IfOk result (λ names. All IsGoodName names.items) }
{
    let bytes = read_file(alloc, folder, asked.list)?;
    let names = read_list(alloc, asked.list, bytes.as_slice())?;
    Ok(names)
}

/// The jobs of a batch: its list is read, and then all models, in order.
pub(crate) fn read_batch<'a, F: Folder>(
    alloc: Global,
    folder: &mut F,
    asked: BatchOrder<'a>,
) -> Result<Vec<Job>, InputFault>
    requires may { F.may folder.old (folder_name asked.list.now) }
    ensures folder { ReadsOn F.Folder folder.old folder.new result }
    ensures reads { (files : FileSet) → F.agrees folder.new files → IsBatchRead (batch_of asked.entry) files result }
    ensures tasks { IfOk result (λ jobs. AreTasks jobs.items) }
    ensures few { IfOk result (λ jobs. length jobs.items ≤ 1000) }
{
    let names = read_names(alloc, folder, asked)?;
    read_jobs(alloc, folder, asked, names.as_slice())
}
