ghost use Rattle.std.specs.Prelude.{◌≡◌, IfSome, IsTrue, is_some, slice_get, Contains, MatchOption, [], ◌∷◌, ◌++◌, OnOk, false};
ghost use Rattle.std.specs.Option.{option_map};
ghost use Rattle.outside.specs.{IsGoodName};
ghost use Rattle.name_file.specs.Pairs.{Pairs, HasNeededPackages, file_of, is_needed, packages_of, AreFiles, has_package};

use crate::package::Package;
use indexmap::IndexMap;
use outside::Name;
use std::alloc::{AllocFailed, Global};
use std::marker::Model;

/// The packages of a model and the names of their files, as they were written: each package at most
/// once, each name a good one, and the packages that every model has. A contract sees the pairs in
/// the order of the name file.
#[derive(Drop)]
pub struct Names {
    pub(crate) files: Gathered,
}

impl Model for Names {
    ghost Value = { Pairs };

    ghost view = { λ n. n.files };

    ghost invariant = { λ n. HasNeededPackages n.files };
}

impl Names {
    /// The name of a package's file; None exactly where no pair has that package. The packages that
    /// every model has are always present.
    #[tactic(auto, using(crate::proofs::NameLemmas::is_there))]
    pub fn file_of(&self, asked: Package) -> Option<&str>
        ensures file { option_map (λ name. name.now) result ≡ file_of asked self.now }
        ensures pair { MatchOption result (¬ Contains (packages_of self.now) asked) (λ name. Contains self.now (asked, name.now)) }
        ensures good { IfSome result (λ name. IsGoodName name.now) }
        ensures there { IsTrue (is_needed asked) → IsTrue (is_some result) }
    {
        self.files.file_of(asked)
    }

    /// The pair at a place in the order of the name file, counted from 0; None past the last one.
    pub fn pair_at(&self, place: usize) -> Option<(Package, &str)>
        ensures pair { option_map (λ p. (p.0, p.1.now)) result ≡ slice_get self.now place }
    {
        self.files.pair_at(place)
    }
}

/// Packages and the names of their files, as they are gathered from the lines of a name file: each
/// package at most once, and each name a good one.
#[derive(Drop)]
pub struct Gathered {
    files: IndexMap<Package, Name>,
}

impl Model for Gathered {
    ghost Value = { Pairs };

    ghost view = { λ n. n.files.entries };

    ghost invariant = { λ n. AreFiles n.files.entries };
}

impl Gathered {
    pub fn new(alloc: Global) -> Gathered
        ensures { result ≡ [] }
    {
        Gathered {
            files: IndexMap::new(alloc),
        }
    }

    #[tactic(auto, using(crate::proofs::NameLemmas::looked_up))]
    pub fn has(&self, asked: Package) -> bool
        ensures { result ≡ has_package asked self.now }
    {
        self.files.contains_key(&asked)
    }

    // A new package is added at the end.
    pub fn add(&mut self, added: Package, name: Name) -> Result<(), AllocFailed<(Package, Name)>>
        requires new { has_package added self.old ≡ false }
        requires good { IsGoodName name }
        ensures { OnOk result (self.new ≡ self.old ++ (added, name) ∷ []) }
    {
        self.files.insert(added, name)?;
        Ok(())
    }

    #[tactic(auto, using(crate::proofs::NameLemmas::looked_up, crate::proofs::NameLemmas::is_held, crate::proofs::NameLemmas::is_not_named, crate::proofs::NameLemmas::is_good_file))]
    pub fn file_of(&self, asked: Package) -> Option<&str>
        ensures file { option_map (λ name. name.now) result ≡ file_of asked self.now }
        ensures pair { MatchOption result (¬ Contains (packages_of self.now) asked) (λ name. Contains self.now (asked, name.now)) }
        ensures good { IfSome result (λ name. IsGoodName name.now) }
    {
        match self.files.get(&asked) {
            Some(name) => Some(name.as_str()),
            None => None,
        }
    }

    pub fn pair_at(&self, place: usize) -> Option<(Package, &str)>
        ensures pair { option_map (λ p. (p.0, p.1.now)) result ≡ slice_get self.now place }
    {
        match self.files.get_index(place) {
            Some((package, name)) => Some((*package, name.as_str())),
            None => None,
        }
    }
}
