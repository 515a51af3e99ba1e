//! The program `heads`, on the files and the streams of the system.
#![tactic(auto)]

ghost use Rattle.std.specs.Prelude.{◌≡◌, map, IfOk};
ghost use Rattle.std.specs.String.{string_bytes};

use engine::{files_asked, serve};
use outside::{FreeGate, RealFolder, RealSink};
use std::alloc::{AllocError, Global};
use std::env;
use std::io::ErrorKind;
use std::process::ExitCode;

// The exit code if memory runs out for the words or the names among them; then nothing is written.
const MEMORY: u8 = 7;

// The program's words. If one of them isn't UTF-8, the list is empty, which asks for no command either.
fn words_of(rt: &HostRuntime, alloc: Global) -> Result<Vec<String>, AllocError> {
    match env::args(rt) {
        Ok(args) => args.collect(alloc),
        Err(fault) if fault.kind() == ErrorKind::InvalidData => Ok(Vec::new(alloc)),
        Err(_) => Err(AllocError),
    }
}

// The same words, borrowed.
fn as_texts<'a>(alloc: Global, words: &'a [String]) -> Result<Vec<&'a str>, AllocError>
    ensures { IfOk result (λ texts. map (λ t. t.now) texts.items ≡ map string_bytes words.now) }
{
    let mut texts = Vec::new(alloc);
    for word in words {
        texts.push(word.as_str())?;
    }
    Ok(texts)
}

fn main(rt: HostRuntime) -> ExitCode {
    let alloc = rt.alloc();
    let words: Vec<String> = match words_of(&rt, alloc) {
        Ok(words) => words,
        Err(_) => return ExitCode::from(MEMORY),
    };
    let Ok(texts) = as_texts(alloc, words.as_slice()) else {
        return ExitCode::from(MEMORY);
    };
    let Ok(asked) = files_asked(alloc, texts.as_slice()) else {
        return ExitCode::from(MEMORY);
    };
    let mut folder = RealFolder::new(&rt, alloc, asked.names.as_slice(), asked.limit);
    let mut out = RealSink::new(rt.stdout());
    let mut side = RealSink::new(rt.stderr());
    serve(
        &rt,
        alloc,
        texts.as_slice(),
        &mut folder,
        &mut out,
        &mut side,
        &FreeGate,
    )
}
