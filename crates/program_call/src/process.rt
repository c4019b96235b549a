//! The arguments of a process as texts, and its exit code. No contract says which arguments a process has.

ghost use Rattle.std.specs.Prelude.{◌≡◌, IfOk, map};
ghost use Rattle.std.specs.Process.{exit_status};
ghost use Rattle.std.specs.Result.{result_unwrap_or};
ghost use Rattle.std.specs.String.{string_bytes};

use crate::statuses::NO_MEMORY;
use std::alloc::{AllocError, Global};
use std::env::{self, Env};
use std::io::ErrorKind;
use std::process::ExitCode;

/// The arguments after the program's name. None are returned if one of them isn't UTF-8, so that they are refused like
/// an unknown one.
///
/// Nothing is promised of them: the contract of `Env` in the toolchain library says only that an argument fits the
/// buffer, and that of `env::args`, which gathers them, nothing.
pub fn process_words<R: Env + Alloc<A = Global>>(rt: &R) -> Result<Vec<String>, AllocError> {
    let alloc = rt.alloc();
    let mut words = Vec::new(alloc);
    let mut args = match env::args(rt) {
        Ok(args) => args,
        Err(error) if error.kind() == ErrorKind::OutOfMemory => return Err(AllocError),
        Err(_) => return Ok(words),
    };
    let _ = args.next();
    for word in args {
        words.push(word)?;
    }
    Ok(words)
}

/// The texts of these words, each in its word's place.
pub fn texts_of<'a>(alloc: Global, words: &'a [String]) -> Result<Vec<&'a str>, AllocError>
    ensures { IfOk result (λ texts. map (λ t. t.now) texts.items ≡ map string_bytes words.now) }
{
    let mut texts = Vec::new(alloc);
    for word in words {
        texts.push(word.as_str())?;
    }
    Ok(texts)
}

/// The exit code that shows a status; where memory ran out, 5.
pub fn exit_code(answered: Result<u8, AllocError>) -> ExitCode
    ensures { exit_status result ≡ result_unwrap_or answered NO_MEMORY }
{
    match answered {
        Ok(status) => ExitCode::from(status),
        Err(_) => ExitCode::from(NO_MEMORY),
    }
}
