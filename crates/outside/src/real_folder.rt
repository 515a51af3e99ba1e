// The files of the system as a folder.
ghost use Rattle.std.specs.Prelude.{◌≡◌, ℕ, [], List, IfErr, IfOk, IfSome, IsSomeAnd, OnErr, OnOk, map, option_map, Option};
ghost use Rattle.outside.specs.Names.{FoundMay};
ghost use Rattle.outside.specs.Puts.{ReadCounts};
ghost use Rattle.outside.specs.Files.{FileSet, IsFound, IsOneMore, IsNoLongerThan, ReadState, AgreesWith, IsNamed, MayAsk, reading_of, Read, FoundNames};
ghost use Rattle.outside.specs.Files.{IsAsFound};

use crate::real::read_whole;
use crate::traits::{Folder, FolderError, Found};
use std::alloc::{AllocError, Global};
use std::io::ErrorKind;
use std::marker::Model;
use std::rt::Files;
use std::{fs, io};

/// The files of the system, each with at most `limit` bytes. What a name was found to be is kept, and a name that was asked
/// for before isn't read again, so that some files agree with all that the folder has answered: those that are under each
/// name what was found there. It counts the reads that failed. It opens no file but one that a word of the command, or of a
/// file that it read, names.
#[derive(Drop)]
pub struct RealFolder<'a, R: Files> {
    rt: &'a R,
    given: &'a [&'a str],
    limit: u64,
    readings: Vec<Reading>,
    faults: u64,
}

impl<'a, R: Files> Model for RealFolder<'a, R> {
    ghost Value = { ReadState };

    ghost view = { λ folder. record {
      given = map (λ w. w.now) folder.given.now;
      limit = folder.limit;
      readings = folder.readings.items;
      faults = folder.faults;
    } };
}

// The one line that opens a file. That it opens the file of this name, to read it, is read off it.
fn open_named<R: Files>(rt: &R, name: &str) -> io::Result<R::File> {
    fs::open(rt, name)
}

impl<'a, R: Files> RealFolder<'a, R> {
    /// A folder that was asked for nothing yet, that these words may name files of, and that reads at most so many bytes of one.
    pub fn new(rt: &'a R, alloc: Global, given: &'a [&'a str], limit: u64) -> RealFolder<'a, R>
        ensures { result ≡ record { given = map (λ w. w.now) given.now; limit = limit; readings = []; faults = 0 } }
    {
        RealFolder {
            rt,
            given,
            limit,
            readings: Vec::new(alloc),
            faults: 0,
        }
    }

    fn find(&mut self, alloc: Global, name: &str, limit: u64) -> Result<Found, FolderError>
        requires { IsNamed self.old name.now }
        ensures given { self.new.given ≡ self.old.given }
        ensures limit { self.new.limit ≡ self.old.limit }
        ensures readings { self.new.readings ≡ self.old.readings }
        ensures within { IfOk result (IsNoLongerThan limit) }
        ensures counts { ReadCounts self.old.faults self.new.faults result }
    {
        let found = match open_named(self.rt, name) {
            Ok(mut file) => read_whole(alloc, &mut file, limit),
            Err(e) if e.kind() == ErrorKind::NotFound => Ok(Found::Missing),
            Err(_) => Err(FolderError::Read),
        };
        if matches!(found, Err(FolderError::Read)) {
            self.faults = self.faults.saturating_add(1);
        }
        found
    }

    /// Reads a file that was not asked for before, and keeps what was found.
    fn read_anew(&mut self, alloc: Global, name: &str) -> Result<(), FolderError>
        requires { IsNamed self.old name.now }
        ensures given { self.new.given ≡ self.old.given }
        ensures limit { self.new.limit ≡ self.old.limit }
        ensures ok { OnOk result (IsOneMore name.now self.old.readings self.new.readings) }
        ensures err { OnErr result (self.new.readings ≡ self.old.readings) }
        ensures counts { ReadCounts self.old.faults self.new.faults result }
    {
        let limit = self.limit;
        let asked = Vec::from_slice(alloc, name.as_bytes())?;
        let found = self.find(alloc, name, limit)?;
        self.readings.insert(0, Reading { name: asked, found })?;
        Ok(())
    }

    /// Reads a file, unless it was asked for before.
    fn ask(&mut self, alloc: Global, name: &str) -> Result<(), FolderError>
        requires { IsNamed self.old name.now }
        ensures limit { self.new.limit ≡ self.old.limit }
        ensures known { OnOk result (IsSomeAnd (reading_of name.now self.new.readings) (λ _. Unit {0})) }
        ensures still { (other : List ℕ) → MayAsk self.old other → MayAsk self.new other }
        ensures since { (files : FileSet) → AgreesWith self.new files → AgreesWith self.old files }
        ensures counts { ReadCounts self.old.faults self.new.faults result }
        ensures again { IfSome (reading_of name.now self.old.readings) (λ _. IfErr result (λ _. ⊥)) }
    {
        if let Some(_) = reading_of(self.readings.as_slice(), name) {
            return Ok(());
        }
        self.read_anew(alloc, name)?;
        Ok(())
    }
}

impl<'a, R: Files> Folder for RealFolder<'a, R> {
    ghost agrees = { AgreesWith };

    ghost faults = { λ folder. folder.faults };

    ghost may = { MayAsk };

    fn read_file(&mut self, alloc: Global, name: &str) -> Result<Found, FolderError>
        requires { MayAsk self.old name.now }
        ensures still { (other : List ℕ) → MayAsk self.old other → MayAsk self.new other }
        ensures words { IfOk result (FoundMay (MayAsk self.new)) }
        ensures since { (files : FileSet) → AgreesWith self.new files → AgreesWith self.old files }
        ensures found { IfOk result (λ found. (files : FileSet) → AgreesWith self.new files → IsFound files.files name.now files.limit found) }
        ensures counts { ReadCounts self.old.faults self.new.faults result }

        // The bytes that it returns are not too long, whichever files agree.
        ensures within { IfOk result (λ found. IsNoLongerThan self.old.limit found) }

        // It has no fault of its own: a name that was answered before is no read fault.
        ensures again { IfSome (reading_of name.now self.old.readings) (λ _. IfErr result (λ fault. fault ≡ FolderError.Memory)) }
    {
        self.ask(alloc, name)?;
        let limit = self.limit;
        match reading_of(self.readings.as_slice(), name) {
            Some(reading) => Ok(reading.answer(alloc, limit)?),
            None => unreachable!(),
        }
    }

    fn some_agree(&self) {}
}

// What was read of the system, kept so that a file is read once.

/// The name that was asked for, and what was found.
#[derive(Drop)]
pub struct Reading {
    pub(crate) name: Vec<u8>,
    pub(crate) found: Found,
}

impl Model for Reading {
    ghost Value = { Read };

    ghost view = { λ r. record { name = r.name.items; found = r.found } };
}

impl Reading {
    /// A copy of what it found, with this limit.
    pub(crate) fn answer(&self, alloc: Global, limit: u64) -> Result<Found, AllocError>
        ensures found { IfOk result (λ found. (under : Option (List ℕ)) → IsAsFound under limit self.now.found → IsAsFound under limit found) }
        ensures within { IfOk result (IsNoLongerThan limit) }
        ensures words { IfOk result (λ found. (name : List ℕ) → FoundNames name found → FoundNames name self.now.found) }
    {
        Ok(match &self.found {
            Found::Bytes(bytes) => {
                if bytes.len() as u64 <= limit {
                    Found::Bytes(Vec::from_slice(alloc, bytes.as_slice())?)
                } else {
                    Found::TooLong
                }
            }
            Found::Missing => Found::Missing,
            Found::TooLong => Found::TooLong,
        })
    }
}

/// The reading of a name.
pub(crate) fn reading_of<'a>(readings: &'a [Reading], name: &str) -> Option<&'a Reading>
    ensures { option_map (λ r. r.now) result ≡ reading_of name.now readings.now }
{
    for reading in readings {
        if name.as_bytes() == reading.name.as_slice() {
            return Some(reading);
        }
    }
    None
}
