// What the words ask for, read from them.
ghost use Rattle.std.specs.Prelude.{◌≡◌, map, option_map, option_and_then, IfOk, IfSome, IsErrOf, Some, None, false};
ghost use Rattle.clap.specs.Words.{rows_of, found_of, first_of, subcommand_rows_of};
ghost use Rattle.command_line.specs.{flag_in, limits_in, quick_if_unwatched, wanted_by, order_of_words, run_in, check_in, make_in, batch_in, if_omitted};
ghost use Rattle.command_line.specs.{command_in, convertible_check_in, file_check_in, listed_in, listing_check_in, named_check_in, plan_check_in, plan_in};
ghost use Rattle.command_line.specs.{text_check_in, unset, write_in};

use crate::commands::heads_command;
use crate::numbers::{
    digits_or_given, read_number, rounds_or_given, turns_or_none, workers_or_given,
};
use crate::order::{
    BatchOrder, CheckOrder, MakeOrder, Order, PlanCheckOrder, PlanOrder, RunOrder, TextOrder,
    WordsFault,
};
use clap::ArgMatches;
use clap::error::ErrorKind;
use model_types::Limits;
use std::alloc::Global;

// The value that the words give to an argument.
fn text_of<'a>(found: &ArgMatches<'a>, id: &str) -> Option<&'a str>
    ensures { option_map (λ s. s.now) result ≡ first_of id.now (rows_of (found_of found.now)) }
{
    found.get_str(id)
}

// Whether the words give a flag.
fn has_flag(found: &ArgMatches, id: &str) -> bool
    ensures { result ≡ flag_in id.now (rows_of (found_of found.now)) }
{
    match text_of(found, id) {
        None => false,
        Some(text) => text == "true",
    }
}

// The limits; wide ones with --wide.
fn limits_in(found: &ArgMatches) -> Limits
    ensures { result ≡ limits_in (rows_of (found_of found.now)) }
{
    if has_flag(found, "wide") {
        Limits::Wide
    } else {
        Limits::Plain
    }
}

// Whether a listing is quick; None for one that is watched too.
fn quick_unless_watched(watch: Option<u32>, quick: bool) -> Option<bool>
    ensures is { result ≡ quick_if_unwatched watch quick }
    ensures plain { IfSome result (λ q. IfSome watch (λ _. q ≡ false)) }
{
    match watch {
        Some(_) if quick => None,
        _ => Some(quick),
    }
}

// The listing of a model.
fn listing_order<'a>(found: &ArgMatches<'a>) -> Option<Order<'a>>
    ensures { option_map wanted_by result ≡ listed_in (rows_of (found_of found.now)) }
{
    let name = text_of(found, "name")?;
    let digits = digits_or_given(text_of(found, "digits"))?;
    let workers = workers_or_given(text_of(found, "workers"))?;
    let rounds = rounds_or_given(text_of(found, "rounds"))?;
    let watch = turns_or_none(text_of(found, "watch"))?;
    let quick = quick_unless_watched(watch, has_flag(found, "quick"))?;
    Some(Order::Run(RunOrder {
        limits: limits_in(found),
        name,
        to: text_of(found, "to"),
        digits,
        workers,
        rounds,
        zones: text_of(found, "zones"),
        watch,
        quick,
        deck: has_flag(found, "deck"),
    }))
}

// Nothing, where an argument is omitted.
fn if_omitted(text: Option<&str>) -> Option<()>
    ensures { result ≡ if_omitted (option_map (λ s. s.now) text.entry) }
{
    match text {
        None => Some(()),
        Some(_) => None,
    }
}

// Nothing, where a flag isn't given.
fn unset(flag: bool) -> Option<()>
    ensures { result ≡ unset flag }
{
    if flag { None } else { Some(()) }
}

// What these wells do.
fn plan_order<'a>(found: &ArgMatches<'a>, wells: &'a str) -> Option<Order<'a>>
    ensures { option_map wanted_by result ≡ plan_in wells.entry.now (rows_of (found_of found.now)) }
{
    let name = text_of(found, "name")?;
    let digits = digits_or_given(text_of(found, "digits"))?;
    let workers = workers_or_given(text_of(found, "workers"))?;
    let rounds = rounds_or_given(text_of(found, "rounds"))?;
    if_omitted(text_of(found, "watch"))?;
    unset(has_flag(found, "deck"))?;
    Some(Order::Plan(PlanOrder {
        limits: limits_in(found),
        name,
        to: text_of(found, "to"),
        wells,
        digits,
        workers,
        rounds,
        zones: text_of(found, "zones"),
        quick: has_flag(found, "quick"),
    }))
}

fn run_order<'a>(found: &ArgMatches<'a>) -> Option<Order<'a>>
    ensures { option_map wanted_by result ≡ run_in (rows_of (found_of found.now)) }
{
    match text_of(found, "plan") {
        None => listing_order(found),
        Some(wells) => plan_order(found, wells),
    }
}

// The check of a listing that is a file of its own.
fn listing_check_order<'a>(found: &ArgMatches<'a>) -> Option<Order<'a>>
    ensures { option_map wanted_by result ≡ listing_check_in (rows_of (found_of found.now)) }
{
    let name = text_of(found, "name")?;
    let listing = text_of(found, "listing")?;
    let digits = digits_or_given(text_of(found, "digits"))?;
    Some(Order::Check(CheckOrder {
        limits: limits_in(found),
        name,
        to: text_of(found, "to"),
        listing,
        digits,
        zones: text_of(found, "zones"),
    }))
}

// The check of a listing of what these wells do.
fn plan_check_order<'a>(found: &ArgMatches<'a>, wells: &'a str) -> Option<Order<'a>>
    ensures { option_map wanted_by result ≡ plan_check_in wells.entry.now (rows_of (found_of found.now)) }
{
    let name = text_of(found, "name")?;
    let listing = text_of(found, "listing")?;
    let digits = digits_or_given(text_of(found, "digits"))?;
    let check = CheckOrder {
        limits: limits_in(found),
        name,
        to: text_of(found, "to"),
        listing,
        digits,
        zones: text_of(found, "zones"),
    };
    Some(Order::CheckPlan(PlanCheckOrder { check, wells }))
}

fn file_check_order<'a>(found: &ArgMatches<'a>) -> Option<Order<'a>>
    ensures { option_map wanted_by result ≡ file_check_in (rows_of (found_of found.now)) }
{
    match text_of(found, "plan") {
        None => listing_check_order(found),
        Some(wells) => plan_check_order(found, wells),
    }
}

// The check of a listing of a model with convertible layers.
fn convertible_check_order<'a>(found: &ArgMatches<'a>) -> Option<Order<'a>>
    ensures { option_map wanted_by result ≡ convertible_check_in (rows_of (found_of found.now)) }
{
    let name = text_of(found, "name")?;
    let listing = text_of(found, "listing")?;
    if_omitted(text_of(found, "to"))?;
    if_omitted(text_of(found, "plan"))?;
    let digits = digits_or_given(text_of(found, "digits"))?;
    Some(Order::CheckConvertible(CheckOrder {
        limits: limits_in(found),
        name,
        to: None,
        listing,
        digits,
        zones: text_of(found, "zones"),
    }))
}

// The check of a listing by the name of its deck.
fn named_check_order<'a>(found: &ArgMatches<'a>) -> Option<Order<'a>>
    ensures { option_map wanted_by result ≡ named_check_in (rows_of (found_of found.now)) }
{
    if has_flag(found, "convertible") {
        convertible_check_order(found)
    } else {
        file_check_order(found)
    }
}

// The check of a text of decks and a listing.
fn text_check_order<'a>(found: &ArgMatches<'a>) -> Option<Order<'a>>
    ensures { option_map wanted_by result ≡ text_check_in (rows_of (found_of found.now)) }
{
    let text = text_of(found, "name")?;
    if_omitted(text_of(found, "listing"))?;
    if_omitted(text_of(found, "to"))?;
    if_omitted(text_of(found, "zones"))?;
    if_omitted(text_of(found, "plan"))?;
    unset(has_flag(found, "convertible"))?;
    let digits = digits_or_given(text_of(found, "digits"))?;
    Some(Order::CheckText(TextOrder {
        limits: limits_in(found),
        text,
        digits,
    }))
}

fn check_order<'a>(found: &ArgMatches<'a>) -> Option<Order<'a>>
    ensures { option_map wanted_by result ≡ check_in (rows_of (found_of found.now)) }
{
    if has_flag(found, "deck") {
        text_check_order(found)
    } else {
        named_check_order(found)
    }
}

fn make_order<'a>(found: &ArgMatches<'a>) -> Option<Order<'a>>
    ensures { option_map wanted_by result ≡ make_in (rows_of (found_of found.now)) }
{
    let seed = text_of(found, "seed")?;
    let size = text_of(found, "size")?;
    let seed = read_number(seed, 0, 2_147_483_647)?;
    let size = read_number(size, 1, 64)?;
    Some(Order::Make(MakeOrder { seed, size }))
}

fn batch_order<'a>(found: &ArgMatches<'a>) -> Option<Order<'a>>
    ensures { option_map wanted_by result ≡ batch_in (rows_of (found_of found.now)) }
{
    let list = text_of(found, "list")?;
    let digits = digits_or_given(text_of(found, "digits"))?;
    let workers = workers_or_given(text_of(found, "workers"))?;
    let rounds = rounds_or_given(text_of(found, "rounds"))?;
    Some(Order::Batch(BatchOrder {
        limits: limits_in(found),
        list,
        digits,
        workers,
        rounds,
        quick: has_flag(found, "quick"),
    }))
}

fn write_order<'a>(found: &ArgMatches<'a>) -> Option<Order<'a>>
    ensures { option_map wanted_by result ≡ write_in (rows_of (found_of found.now)) }
{
    let name = text_of(found, "name")?;
    Some(Order::Write {
        limits: limits_in(found),
        name,
    })
}

fn command_order<'a>(name: &str, found: &ArgMatches<'a>) -> Option<Order<'a>>
    ensures { option_map wanted_by result ≡ command_in name.now (rows_of (found_of found.now)) }
{
    if name == "run" {
        run_order(found)
    } else if name == "check" {
        check_order(found)
    } else if name == "make" {
        make_order(found)
    } else if name == "batch" {
        batch_order(found)
    } else if name == "write" {
        write_order(found)
    } else if name == "words" {
        Some(Order::Words)
    } else {
        None
    }
}

fn order_from<'a>(matches: &ArgMatches<'a>) -> Option<Order<'a>>
    ensures { option_map wanted_by result ≡ option_and_then (λ p. command_in p.0 p.1) (subcommand_rows_of matches.now) }
{
    let (name, found) = matches.subcommand()?;
    command_order(name, found)
}

/// What the words ask for; the first of them is the program's name. A call for help asks for nothing.
pub fn read_order<'a>(alloc: Global, words: &'a [&'a str]) -> Result<Order<'a>, WordsFault>
    ensures order { IfOk result (λ o. order_of_words (map (λ w. w.now) words.entry.now) ≡ Some (wanted_by o)) }
    ensures usage { IsErrOf result WordsFault.Usage → order_of_words (map (λ w. w.now) words.entry.now) ≡ None }
{
    let Ok(command) = heads_command(alloc) else {
        return Err(WordsFault::Memory);
    };
    let matches = match command.try_get_matches_from(words) {
        Ok(matches) => matches,
        Err(error) => {
            if error.kind() == ErrorKind::OutOfMemory {
                return Err(WordsFault::Memory);
            }
            return Err(WordsFault::Usage);
        }
    };
    match order_from(&matches) {
        Some(order) => Ok(order),
        None => Err(WordsFault::Usage),
    }
}
