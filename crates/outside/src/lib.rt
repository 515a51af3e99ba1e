//! What a program uses of the world outside: a folder to read, sinks to write to, a gate before each
//! turn; and how an input is refused.
#![tactic(auto)]

mod codes;
mod inputs;
mod memory;
mod names;
mod real;
mod real_folder;
mod stored;
mod traits;

pub use codes::Code;
pub use inputs::{
    FILE_LIMIT, InputFault, Refusal, TextFault, file_refusal, read_input, text_fault,
};
pub use memory::FreeGate;
pub use names::{Name, folder_name, good_name, is_good_name};
pub use real::{RealSink, read_whole};
pub use real_folder::RealFolder;
pub use stored::{MemFolder, MemSink};
pub use traits::{Folder, FolderError, Found, Gate, Sink, SinkError};
