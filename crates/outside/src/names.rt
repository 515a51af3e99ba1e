ghost use Rattle.std.specs.Prelude.{◌≡◌, ℕ, ◌↔◌, List, IsTrue, IfOk, MatchOption};
ghost use Rattle.std.specs.String.{string_bytes};
ghost use Rattle.std.specs.Cmp.{partial_equiv_from_equiv};
ghost use Rattle.std.proofs.lemmas.Cmp.{nat_list_eq_equiv};
ghost use Rattle.std.specs.Str.{bytes_eq};
ghost use Rattle.outside.specs.Names.{IsGoodName, folder_name};

use std::alloc::{AllocError, Global};
use std::marker::Model;
use std::str;

/// A file's name as it was written. Clauses see its bytes.
#[derive(Drop)]
pub struct Name {
    text: String,
}

impl Model for Name {
    ghost Value = { List ℕ };

    ghost view = { λ n. string_bytes n.text };
}

impl Name {
    pub fn new(alloc: Global, text: &str) -> Result<Name, AllocError>
        ensures { IfOk result (λ name. name ≡ text.now) }
    {
        Ok(Name {
            text: String::from_str(alloc, text)?,
        })
    }

    pub fn as_str(&self) -> &str
        ensures { result.now ≡ self.now }
    {
        self.text.as_str()
    }
}

impl PartialEq for Name {
    ghost eq = { bytes_eq };

    ghost laws = { partial_equiv_from_equiv nat_list_eq_equiv };

    fn eq(&self, other: &Name) -> bool {
        self.text.as_str() == other.text.as_str()
    }
}

/// Whether a file's name is a good one: 1 to 255 bytes, each from 33 to 126.
pub fn is_good_name(name: &[u8]) -> bool
    ensures { IsTrue result ↔ IsGoodName name.now }
{
    1 <= name.len() && name.len() <= 255 && name.iter().all(|b| 33 <= *b && *b <= 126)
}

/// The bytes of a file's name as text; None where the name isn't a good one.
pub fn good_name(name: &[u8]) -> Option<&str>
    ensures { MatchOption result (¬ IsGoodName name.now) (λ text. (text.now ≡ name.now) × IsGoodName name.now) }
{
    if !is_good_name(name) {
        return None;
    }
    match str::from_utf8(name) {
        Ok(text) => Some(text),
        Err(_) => None,
    }
}

/// The name by which a folder is asked for a file: each backslash becomes a slash.
pub fn folder_name(alloc: Global, name: &str) -> Result<String, AllocError>
    requires { IsGoodName name.now }
    ensures { IfOk result (λ asked. string_bytes asked ≡ folder_name name.now) }
{
    let turned = with_slashes(alloc, name.as_bytes())?;
    Ok(String::from_utf8(turned).unwrap())
}

fn with_slashes(alloc: Global, name: &[u8]) -> Result<Vec<u8>, AllocError>
    ensures { IfOk result (λ v. v.items ≡ folder_name name.now) }
{
    name.iter()
        .map(|b| if *b == b'\\' { b'/' } else { *b })
        .collect(alloc)
}
