ghost use Rattle.std.specs.Prelude.{◌≡◌, ℕ, List, [], ◌∷◌, ◌++◌, refl, IfOk, OnOk, OnErr};
ghost use Rattle.outside.specs.Memory.{SinkState, seen_in_memory, ReadsInMemory, PutsInMemory};
ghost use Rattle.outside.specs.Puts.{ReadCounts, Put, PutMakes, PutsMake};
ghost use Rattle.outside.specs.Names.{FoundMay};
ghost use Rattle.outside.specs.Files.{FileSet, IsFound, with_limit};

use crate::stored::{Fail, MemFolder, MemSink, Stored, find_bytes, find_kept};
use crate::traits::{Folder, FolderError, Found, Gate, Sink, SinkError};
use std::alloc::{AllocError, Global};

impl MemFolder {
    /// Adds a file, which replaces an earlier one of that name.
    pub fn add(&mut self, name: &str, bytes: &[u8]) -> Result<(), AllocError>
        ensures ok { OnOk result (self.new ≡ record self.old { files = record { name = name.now; bytes = bytes.now } ∷ self.old.files }) }
        ensures err { OnErr result (self.new ≡ self.old) }
    {
        let stored = Stored {
            name: Vec::from_slice(self.alloc, name.as_bytes())?,
            bytes: Vec::from_slice(self.alloc, bytes)?,
        };
        self.stored.insert(0, stored)?;
        Ok(())
    }

    /// Sets how many bytes of a file are read.
    pub fn set_limit(&mut self, limit: u64)
        ensures { self.new ≡ record self.old { limit = limit } }
    {
        self.limit = limit;
    }

    /// Makes the call of this number, counted from 1, fail.
    pub fn fail_at(&mut self, call: u64) -> Result<(), AllocError>
        ensures ok { OnOk result (self.new ≡ record self.old { script = self.old.script ++ (call ∷ []) }) }
        ensures err { OnErr result (self.new ≡ self.old) }
    {
        self.script.push(call)?;
        Ok(())
    }
}

impl Folder for MemFolder {
    ghost agrees = { λ f files. files ≡ with_limit f.limit f.files };

    ghost faults = { λ f. f.faults };

    // It may be asked for any file.
    ghost may = { λ _ _. Unit {0} };

    fn read_file(&mut self, alloc: Global, name: &str) -> Result<Found, FolderError>
        ensures still { (other : List ℕ) → Unit {0} → Unit {0} }
        ensures words { IfOk result (FoundMay (λ _. Unit {0})) }
        ensures since { (files : FileSet) → files ≡ with_limit self.new.limit self.new.files → files ≡ with_limit self.old.limit self.old.files }
        ensures found { IfOk result (λ found. (files : FileSet) →
            files ≡ with_limit self.new.limit self.new.files → IsFound files.files name.now files.limit found) }
        ensures counts { ReadCounts self.old.faults self.new.faults result }

        // A call fails exactly where its number is in the script.
        ensures script { ReadsInMemory self.old result self.new }
    {
        self.calls = self.calls.saturating_add(1);
        if self.script.as_slice().contains(&self.calls) {
            self.faults = self.faults.saturating_add(1);
            return Err(FolderError::Read);
        }
        match find_bytes(self.stored.as_slice(), name) {
            None => Ok(Found::Missing),
            Some(bytes) => {
                if bytes.len() as u64 > self.limit {
                    return Ok(Found::TooLong);
                }
                match Vec::from_slice(alloc, bytes) {
                    Ok(v) => Ok(Found::Bytes(v)),
                    Err(_) => Err(FolderError::Memory),
                }
            }
        }
    }

    fn some_agree(&self) {}
}

impl MemSink {
    /// Makes the put of this number, counted from 1, fail and keep this many bytes.
    pub fn fail_at(&mut self, call: u64, kept: u64) -> Result<(), AllocError>
        ensures ok { OnOk result (self.new ≡ record self.old { script = self.old.script ++ (record { call = call; kept = kept } ∷ []) }) }
        ensures err { OnErr result (self.new ≡ self.old) }
    {
        self.script.push(Fail { call, kept })?;
        Ok(())
    }

    pub fn bytes(&self) -> &[u8]
        ensures { result.now ≡ self.now.bytes }
    {
        self.bytes.as_slice()
    }
}

impl Sink for MemSink {
    ghost seen = { seen_in_memory };

    ghost leads = { λ s puts t. PutsMake (seen_in_memory s) puts (seen_in_memory t) };

    ghost rests = { λ s. refl };

    ghost tells = { λ s puts t h. h };

    fn put(&mut self, piece: &[u8]) -> Result<(), SinkError>
        ensures makes { PutMakes (seen_in_memory self.old) (record { piece = piece.now; answer = result }) (seen_in_memory self.new) }
        ensures leads { (start : SinkState) (puts : List Put) → PutsMake (seen_in_memory start) puts (seen_in_memory self.old) →
            PutsMake (seen_in_memory start) (puts ++ (record { piece = piece.now; answer = result } ∷ [])) (seen_in_memory self.new) }

        // A put fails exactly where its number is in the script, and then keeps as many bytes as the script says.
        ensures script { PutsInMemory self.old piece.now result self.new }
    {
        self.calls = self.calls.saturating_add(1);
        match find_kept(self.script.as_slice(), self.calls) {
            None => match self.bytes.extend_from_slice(piece) {
                Ok(()) => Ok(()),
                Err(_) => Err(SinkError::Memory),
            },
            Some(kept) => {
                let kept = piece.len().min(kept as usize);
                match self.bytes.extend_from_slice(&piece[..kept]) {
                    Ok(()) => {
                        self.faults = self.faults.saturating_add(1);
                        Err(SinkError::Write)
                    }
                    Err(_) => Err(SinkError::Memory),
                }
            }
        }
    }
}

/// A gate that does nothing.
#[derive(Clone, Copy)]
pub struct FreeGate;

impl Gate for FreeGate {
    fn pass(&self, _worker: u32, _turn: u32) {}
}
