// The files that the words ask for.
ghost use Rattle.std.specs.Prelude.{◌≡◌, map, IfOk, Some};
ghost use Rattle.command_line.specs.{wanted_by};
ghost use Rattle.engine.specs.{bytes_asked, files_named, files_of, limits_asked};
ghost use Rattle.model_types.specs.{most_bytes};

use command_line::{Order, WordsFault, read_order};
use model_types::Limits;
use std::alloc::{AllocError, Global};

/// What a folder must be given for the words.
#[derive(Drop)]
pub struct AskedFiles<'a> {
    /// The names of the files that it may be asked for: the name file of a run, the second one, and its zone file; the same of a
    /// plan, and its wells; the same of a check, and its listing, or its wells and its listing; the list of a batch; the name file of a deck; the text that is
    /// checked. None where the words aren't accepted, to make a model, and for the words.
    pub names: Vec<&'a str>,
    /// How many bytes of a file are read, by the limits.
    pub limit: u64,
}

// The files that an order asks for.
fn files_of<'a>(alloc: Global, order: Order<'a>) -> Result<AskedFiles<'a>, AllocError>
    ensures names { IfOk result (λ files. map (λ n. n.now) files.names.items ≡ files_of (wanted_by order.entry)) }
    ensures limit { IfOk result (λ files. files.limit ≡ most_bytes (limits_asked (Some (wanted_by order.entry)))) }
{
    let mut names = Vec::new(alloc);
    let limits = match order {
        Order::Run(asked) => {
            names.push(asked.name)?;
            if let Some(to) = asked.to {
                names.push(to)?;
            }
            if let Some(zones) = asked.zones {
                names.push(zones)?;
            }
            asked.limits
        }
        Order::Plan(asked) => {
            names.push(asked.name)?;
            if let Some(to) = asked.to {
                names.push(to)?;
            }
            if let Some(zones) = asked.zones {
                names.push(zones)?;
            }
            names.push(asked.wells)?;
            asked.limits
        }
        Order::Check(asked) => {
            names.push(asked.name)?;
            if let Some(to) = asked.to {
                names.push(to)?;
            }
            if let Some(zones) = asked.zones {
                names.push(zones)?;
            }
            names.push(asked.listing)?;
            asked.limits
        }
        Order::CheckPlan(asked) => {
            let check = asked.check;
            names.push(check.name)?;
            if let Some(to) = check.to {
                names.push(to)?;
            }
            if let Some(zones) = check.zones {
                names.push(zones)?;
            }
            names.push(asked.wells)?;
            names.push(check.listing)?;
            check.limits
        }
        Order::CheckConvertible(asked) => {
            names.push(asked.name)?;
            if let Some(zones) = asked.zones {
                names.push(zones)?;
            }
            names.push(asked.listing)?;
            asked.limits
        }
        Order::Make(_) | Order::Words => Limits::Plain,
        Order::CheckText(asked) => {
            names.push(asked.text)?;
            asked.limits
        }
        Order::Batch(asked) => {
            names.push(asked.list)?;
            asked.limits
        }
        Order::Write { limits, name } => {
            names.push(name)?;
            limits
        }
    };
    let limit = limits.bytes();
    Ok(AskedFiles { names, limit })
}

/// The files that the words ask for.
pub fn files_asked<'a>(alloc: Global, words: &'a [&'a str]) -> Result<AskedFiles<'a>, AllocError>
    ensures names { IfOk result (λ files. map (λ n. n.now) files.names.items ≡ files_named (map (λ w. w.now) words.entry.now)) }
    ensures limit { IfOk result (λ files. files.limit ≡ bytes_asked (map (λ w. w.now) words.entry.now)) }
{
    match read_order(alloc, words) {
        Ok(order) => files_of(alloc, order),
        Err(WordsFault::Usage) => Ok(AskedFiles {
            names: Vec::new(alloc),
            limit: Limits::Plain.bytes(),
        }),
        Err(WordsFault::Memory) => Err(AllocError),
    }
}
