// The deck of a model as one text.
ghost use Rattle.std.specs.Prelude.{◌≡◌, ◌++◌, IfOk, map, option_map, pos};
ghost use Rattle.std.specs.List.{flat_map};
ghost use Rattle.model_types.specs.{HasSize};
ghost use Rattle.model_text.specs.{deck_files, deck_names, deck_text, file_line, file_text, file_texts, has, package_file, packages, zoned_text};
ghost use Rattle.model_writer.specs.{chosen_bytes, part_bytes, zone_bytes};

use crate::arrays::push_layers;
use crate::names::{names_of, push_name};
use crate::packages::{PACKAGES, has_package, push_package};
use model_types::{FlowModel, Grid};
use name_file::Package;
use std::alloc::{AllocError, Global};

/// Appends the line before a file.
#[tactic(auto, using(crate::proofs::Texts::texts), unfolding(model_text::specs::Written::file_line))]
fn push_file_line(text: &mut Vec<u8>, name: &str) -> Result<(), AllocError>
    ensures { IfOk result (λ _. text.new.items ≡ text.old.items ++ file_line name.now) }
{
    text.extend_from_slice(b"FILE ")?;
    text.extend_from_slice(name.as_bytes())?;
    text.push(b'\n')?;
    Ok(())
}

/// Appends the file of a package, after its line.
#[tactic(auto, using(crate::proofs::Texts::texts), unfolding(model_text::specs::Written::file_text))]
fn push_file(text: &mut Vec<u8>, model: &FlowModel, kind: Package) -> Result<(), AllocError>
    requires { HasSize model.now.grid }
    ensures { IfOk result (λ _. text.new.items ≡ text.old.items ++ file_text (package_file model.now deck_names kind)) }
{
    let (_, name) = names_of(kind);
    push_file_line(text, name)?;
    push_package(text, model, kind)
}

/// Appends the line of a package in the name file, or its file, if the model has the package.
#[tactic(auto, using(crate::proofs::ListTexts::one_item, crate::proofs::Texts::texts), unfolding(crate::specs::Lists::part_bytes))]
fn push_part_if(
    text: &mut Vec<u8>,
    model: &FlowModel,
    named: bool,
    kind: Package,
) -> Result<(), AllocError>
    requires { HasSize model.now.grid }
    ensures { IfOk result (λ _. text.new.items ≡ text.old.items ++ chosen_bytes (has model.now) (part_bytes model.now named) kind) }
{
    if !has_package(model, kind) {
        return Ok(());
    }
    if named {
        push_name(text, kind)
    } else {
        push_file(text, model, kind)
    }
}

/// Appends the lines or the files of the packages that the model has.
#[tactic(auto, using(crate::proofs::Texts::texts))]
fn push_parts(text: &mut Vec<u8>, model: &FlowModel, named: bool) -> Result<(), AllocError>
    requires { HasSize model.now.grid }
    ensures { IfOk result (λ _. text.new.items ≡ text.old.items ++ flat_map (chosen_bytes (has model.now) (part_bytes model.now named)) packages) }
{
    for kind in PACKAGES {
        push_part_if(text, model, named, kind)?;
    }
    Ok(())
}

/// Appends the files of a model's deck, each after its line.
fn push_files(text: &mut Vec<u8>, model: &FlowModel) -> Result<(), AllocError>
    requires { HasSize model.now.grid }
    ensures { IfOk result (λ _. text.new.items ≡ text.old.items ++ file_texts (deck_files model.now)) }
{
    push_file_line(text, "p.nam")?;
    push_parts(text, model, true)?;
    push_parts(text, model, false)?;
    Ok(())
}

// Zones as the integers of a file.
fn as_integers(alloc: Global, zones: &[u32]) -> Result<Vec<i64>, AllocError>
    ensures { IfOk result (λ v. v.items ≡ map pos zones.now) }
{
    zones.iter().map(|zone| i64::from(*zone)).collect(alloc)
}

/// Appends the file of the zones of a grid's cells, after its line, if there are any.
#[tactic(auto, using(crate::proofs::Texts::texts), unfolding(model_text::specs::Written::file_text, array_text::specs::Lines::integer_array))]
fn push_zones(text: &mut Vec<u8>, grid: &Grid, zones: Option<&[u32]>) -> Result<(), AllocError>
    requires { HasSize grid.now }
    ensures { IfOk result (λ _. text.new.items ≡ text.old.items ++ zone_bytes grid.now (option_map (λ z. z.now) zones.entry)) }
{
    let Some(zones) = zones else {
        return Ok(());
    };
    let integers = as_integers(*text.allocator(), zones)?;
    push_file_line(text, "p.zon")?;
    push_layers(text, grid, integers.as_slice())
}

/// Appends the text of a model's deck: for the name file, for the file of each package that the model has, and for that of
/// zones if there are any, a line FILE with its name and then the file; and last the line END.
pub fn push_deck(
    text: &mut Vec<u8>,
    model: &FlowModel,
    zones: Option<&[u32]>,
) -> Result<(), AllocError>
    requires size { HasSize model.now.grid }
    ensures { IfOk result (λ _. text.new.items ≡ text.old.items ++ zoned_text model.now (option_map (λ z. z.now) zones.entry)) }
{
    push_files(text, model)?;
    push_zones(text, &model.grid, zones)?;
    text.extend_from_slice(b"END\n")?;
    Ok(())
}

/// The text of a model's deck, without zones. The only error is that memory runs out.
#[tactic(auto, using(crate::proofs::ListTexts::deck_is_zoned))]
pub fn write_deck(alloc: Global, model: &FlowModel) -> Result<Vec<u8>, AllocError>
    requires size { HasSize model.now.grid }
    ensures { IfOk result (λ text. text.items ≡ deck_text model.now) }
{
    let mut text = Vec::new(alloc);
    push_deck(&mut text, model, None)?;
    Ok(text)
}
