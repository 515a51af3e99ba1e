ghost use Rattle.std.specs.Prelude.{IfOk};
ghost use Rattle.clap.specs.Words.{App, with_subcommand};
ghost use Rattle.command_line.specs.{HasForm, needing, run_app, check_app, make_app, batch_app, write_app, heads_app, settling, spanning, with_flag};
ghost use Rattle.command_line.specs.{with_last_word, with_option, with_word, words_app};

use clap::{Arg, ArgAction, Command};
use std::alloc::{AllocError, Global};

// The command with one more positional word.
fn with_word<'a>(
    alloc: Global,
    command: Command<'a>,
    id: &'a str,
) -> Result<Command<'a>, AllocError>
    ensures { (form : App) → HasForm form command.entry → IfOk result (HasForm (with_word form id.entry.now)) }
{
    command.arg(Arg::new(alloc, id).required(true))
}

// The command with one more positional word, which may be omitted.
fn with_last_word<'a>(
    alloc: Global,
    command: Command<'a>,
    id: &'a str,
) -> Result<Command<'a>, AllocError>
    ensures { (form : App) → HasForm form command.entry → IfOk result (HasForm (with_last_word form id.entry.now)) }
{
    command.arg(Arg::new(alloc, id))
}

// The command with one more option that has a value.
fn with_option<'a>(
    alloc: Global,
    command: Command<'a>,
    id: &'a str,
) -> Result<Command<'a>, AllocError>
    ensures { (form : App) → HasForm form command.entry → IfOk result (HasForm (with_option form id.entry.now)) }
{
    command.arg(Arg::new(alloc, id).long(id))
}

// The command with one more option that has no value.
fn with_flag<'a>(
    alloc: Global,
    command: Command<'a>,
    id: &'a str,
) -> Result<Command<'a>, AllocError>
    ensures { (form : App) → HasForm form command.entry → IfOk result (HasForm (with_flag form id.entry.now)) }
{
    command.arg(Arg::new(alloc, id).long(id).action(ArgAction::SetTrue))
}

// The command with the options of a settling.
fn with_settling<'a>(alloc: Global, command: Command<'a>) -> Result<Command<'a>, AllocError>
    ensures { (form : App) → HasForm form command.entry → IfOk result (HasForm (settling form)) }
{
    let command = with_option(alloc, command, "digits")?;
    let command = with_option(alloc, command, "workers")?;
    let command = with_option(alloc, command, "rounds")?;
    let command = with_flag(alloc, command, "quick")?;
    with_flag(alloc, command, "wide")
}

// The command with the options of a second deck and of zones.
fn with_span<'a>(alloc: Global, command: Command<'a>) -> Result<Command<'a>, AllocError>
    ensures { (form : App) → HasForm form command.entry → IfOk result (HasForm (spanning form)) }
{
    let command = with_option(alloc, command, "to")?;
    with_option(alloc, command, "zones")
}

fn run_command<'a>(alloc: Global) -> Result<Command<'a>, AllocError>
    ensures { IfOk result (HasForm run_app) }
{
    let command = with_word(alloc, Command::new(alloc, "run"), "name")?;
    let command = with_settling(alloc, command)?;
    let command = with_span(alloc, command)?;
    let command = with_option(alloc, command, "watch")?;
    let command = with_flag(alloc, command, "deck")?;
    with_option(alloc, command, "plan")
}

fn check_command<'a>(alloc: Global) -> Result<Command<'a>, AllocError>
    ensures { IfOk result (HasForm check_app) }
{
    let command = with_word(alloc, Command::new(alloc, "check"), "name")?;
    let command = with_last_word(alloc, command, "listing")?;
    let command = with_option(alloc, command, "digits")?;
    let command = with_span(alloc, command)?;
    let command = with_flag(alloc, command, "wide")?;
    let command = with_flag(alloc, command, "deck")?;
    let command = with_option(alloc, command, "plan")?;
    with_flag(alloc, command, "convertible")
}

#[tactic(auto, unfolding(crate::specs::Commands::make_app))]
fn make_command<'a>(alloc: Global) -> Result<Command<'a>, AllocError>
    ensures { IfOk result (HasForm make_app) }
{
    let command = with_word(alloc, Command::new(alloc, "make"), "seed")?;
    with_word(alloc, command, "size")
}

#[tactic(auto, unfolding(crate::specs::Commands::batch_app))]
fn batch_command<'a>(alloc: Global) -> Result<Command<'a>, AllocError>
    ensures { IfOk result (HasForm batch_app) }
{
    let command = with_word(alloc, Command::new(alloc, "batch"), "list")?;
    with_settling(alloc, command)
}

#[tactic(auto, unfolding(crate::specs::Commands::write_app))]
fn write_command<'a>(alloc: Global) -> Result<Command<'a>, AllocError>
    ensures { IfOk result (HasForm write_app) }
{
    let command = with_word(alloc, Command::new(alloc, "write"), "name")?;
    with_flag(alloc, command, "wide")
}

#[tactic(auto, unfolding(crate::specs::Commands::words_app))]
fn words_command<'a>(alloc: Global) -> Result<Command<'a>, AllocError>
    ensures { IfOk result (HasForm words_app) }
{
    Ok(Command::new(alloc, "words"))
}

// The command with one more subcommand, if there was memory for that one.
fn with_command<'a>(
    command: Command<'a>,
    sub: Result<Command<'a>, AllocError>,
) -> Result<Command<'a>, AllocError>
    ensures { (top below : App) → HasForm top command.entry → IfOk sub.entry (HasForm below) → IfOk result (HasForm (with_subcommand top below.top)) }
{
    match sub {
        Ok(sub) => command.subcommand(sub),
        Err(error) => {
            // one call, so that the proof has no part for each of its fields
            drop(command);
            Err(error)
        }
    }
}

// The same command, which then needs a subcommand.
fn with_need<'a>(command: Command<'a>) -> Command<'a>
    ensures { (form : App) → HasForm form command.entry → HasForm (needing form) result }
{
    command.subcommand_required(true)
}

/// The whole command line.
pub(crate) fn heads_command<'a>(alloc: Global) -> Result<Command<'a>, AllocError>
    ensures { IfOk result (HasForm heads_app) }
{
    let command = with_command(Command::new(alloc, "heads"), run_command(alloc))?;
    let command = with_command(command, check_command(alloc))?;
    let command = with_command(command, make_command(alloc))?;
    let command = with_command(command, batch_command(alloc))?;
    let command = with_command(command, write_command(alloc))?;
    let command = with_command(command, words_command(alloc))?;
    Ok(with_need(command))
}
