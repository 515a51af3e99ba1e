// The names of the files of a deck, and the lines of its name file.
ghost use Rattle.std.specs.Prelude.{◌≡◌, [], ◌∷◌, ◌++◌, cond, IfOk};
ghost use Rattle.model_text.specs.{deck_name, deck_names, has, file_type, file_unit, name_item};
ghost use Rattle.model_writer.specs.{line_bytes};

use crate::packages::has_package;
use model_types::FlowModel;
use name_file::Package;
use std::alloc::AllocError;

/// The file type and the file unit of a package, with a blank after each; and the name of its file in the text of a deck.
pub(crate) fn names_of(kind: Package) -> (&'static [u8], &'static str)
    ensures type_and_unit { result.0.now ≡ file_type kind ++ (32 ∷ (file_unit kind ++ (32 ∷ []))) }
    ensures name { result.1.now ≡ deck_names kind }
{
    match kind {
        Package::Dis => (b"DIS 11 ", "p.dis"),
        Package::Bas => (b"BAS6 12 ", "p.bas"),
        Package::Lpf => (b"LPF 13 ", "p.lpf"),
        Package::Wel => (b"WEL 14 ", "p.wel"),
        Package::Riv => (b"RIV 15 ", "p.riv"),
        Package::Drn => (b"DRN 16 ", "p.drn"),
        Package::Ghb => (b"GHB 17 ", "p.ghb"),
        Package::Rch => (b"RCH 18 ", "p.rch"),
        Package::Chd => (b"CHD 19 ", "p.chd"),
        Package::Evt => (b"EVT 20 ", "p.evt"),
    }
}

/// The name of a model's file of a package in the text of its deck; that of its name file where it has no such package.
pub fn file_in_deck(model: &FlowModel, kind: Package) -> &'static str
    ensures { result.now ≡ cond (has model.now kind) (deck_names kind) deck_name }
{
    if has_package(model, kind) {
        names_of(kind).1
    } else {
        "p.nam"
    }
}

/// Appends the line of a package in the name file.
#[tactic(auto, using(crate::proofs::Texts::texts), unfolding(crate::specs::Lists::line_bytes, array_text::specs::Lines::line_text, model_text::specs::Written::name_item))]
pub(crate) fn push_name(bytes: &mut Vec<u8>, kind: Package) -> Result<(), AllocError>
    ensures { IfOk result (λ _. bytes.new.items ≡ bytes.old.items ++ line_bytes (name_item deck_names kind)) }
{
    let (type_and_unit, name) = names_of(kind);
    bytes.extend_from_slice(type_and_unit)?;
    bytes.extend_from_slice(name.as_bytes())?;
    bytes.push(b'\n')?;
    Ok(())
}
