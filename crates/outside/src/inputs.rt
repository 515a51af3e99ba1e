ghost use Rattle.std.specs.Prelude.{◌≡◌, List, IfOk};
ghost use Rattle.outside.specs.Names.{TextMay, IsGoodName, folder_name};
ghost use Rattle.outside.specs.Files.{FileSet};
ghost use Rattle.outside.specs.Folders.{ReadsOn};
ghost use Rattle.outside.specs.Inputs.{file_at, file_refusal, IsReading};
ghost use Rattle.outside.specs.Codes.{IsRefusal};

use crate::codes::Code;
use crate::names::{Name, folder_name};
use crate::traits::{Folder, FolderError, Found};
use std::alloc::{AllocError, AllocFailed, Global};

/// The most bytes of a file by plain limits.
pub const FILE_LIMIT: u64 = 67_108_864;

/// A whole file of the folder. A missing file and one that is too long are refused, with the name
/// as it was written.
pub fn read_input<F: Folder>(
    alloc: Global,
    folder: &mut F,
    name: &str,
) -> Result<Vec<u8>, InputFault>
    requires name { IsGoodName name.now }
    requires may { F.may folder.old (folder_name name.now) }
    ensures folder { ReadsOn F.Folder folder.old folder.new result }
    ensures words { IfOk result (λ v. TextMay (F.may folder.new) v.items) }
    ensures reads { (files : FileSet) → F.agrees folder.new files → IsReading (λ v. v.items) (file_at files name.now) result }
{
    let asked = folder_name(alloc, name)?;
    let found = folder.read_file(alloc, asked.as_str());
    drop(asked);
    match found {
        Ok(Found::Bytes(bytes)) => Ok(bytes),
        Ok(Found::Missing) => Err(InputFault::Refused(file_refusal(
            alloc,
            Code::MissingFile,
            name,
        )?)),
        Ok(Found::TooLong) => Err(InputFault::Refused(file_refusal(alloc, Code::TooLong, name)?)),
        Err(FolderError::Read) => Err(InputFault::ReadFault),
        Err(FolderError::Memory) => Err(InputFault::Memory),
    }
}

/// The refusal of a file as a whole, with line 0.
pub fn file_refusal(alloc: Global, code: Code, name: &str) -> Result<Refusal, AllocError>
    ensures { IfOk result (λ refusal. refusal ≡ file_refusal code name.now) }
{
    Ok(Refusal {
        code,
        file: Name::new(alloc, name)?,
        line: 0,
        at: None,
    })
}

/// The refusal of a line of a file, or `Memory` where there is no memory for the file's name.
pub fn text_fault(alloc: Global, code: Code, file: &str, line: u32) -> TextFault
    ensures { IsRefusal code file.now line result }
{
    match Name::new(alloc, file) {
        Ok(file) => TextFault::Refused(Refusal {
            code,
            file,
            line,
            at: None,
        }),
        Err(_) => TextFault::Memory,
    }
}

/// A refusal of an input: the code, the file and line (0 where no line is meant), and the layer, row
/// and column where a cell is meant.
#[derive(Drop)]
pub struct Refusal {
    pub code: Code,
    pub file: Name,
    pub line: u32,
    pub at: Option<[u32; 3]>,
}

/// Why a reading that uses a folder has no value.
#[derive(Drop)]
pub enum InputFault {
    Refused(Refusal),
    ReadFault,
    Memory,
}

/// Why a reading of a text has no value.
#[derive(Drop)]
pub enum TextFault {
    Refused(Refusal),
    Memory,
}

impl<T: Drop> From<AllocFailed<T>> for TextFault {
    ghost use Rattle.outside.specs.declared.inputs.TextFault.TheVariants.{Memory};

    ghost from_gives = { λ _ fault. fault ≡ Memory };

    fn from(_failed: AllocFailed<T>) -> TextFault {
        TextFault::Memory
    }
}

impl<T: Drop> From<AllocFailed<T>> for InputFault {
    ghost use Rattle.outside.specs.declared.inputs.InputFault.TheVariants.{Memory};

    ghost from_gives = { λ _ fault. fault ≡ Memory };

    fn from(_failed: AllocFailed<T>) -> InputFault {
        InputFault::Memory
    }
}

impl From<AllocError> for TextFault {
    ghost use Rattle.outside.specs.declared.inputs.TextFault.TheVariants.{Memory};

    ghost from_gives = { λ _ fault. fault ≡ Memory };

    fn from(_error: AllocError) -> TextFault {
        TextFault::Memory
    }
}

impl From<AllocError> for InputFault {
    ghost use Rattle.outside.specs.declared.inputs.InputFault.TheVariants.{Memory};

    ghost from_gives = { λ _ fault. fault ≡ Memory };

    fn from(_error: AllocError) -> InputFault {
        InputFault::Memory
    }
}

impl From<TextFault> for InputFault {
    ghost use Rattle.outside.specs.Codes.{input_fault};

    ghost from_gives = { λ text fault. fault ≡ input_fault text };

    fn from(fault: TextFault) -> InputFault {
        match fault {
            TextFault::Refused(refusal) => InputFault::Refused(refusal),
            TextFault::Memory => InputFault::Memory,
        }
    }
}
