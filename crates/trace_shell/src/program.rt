//! The arguments of the program: the folder of its store, and the words of its command line.

ghost use Rattle.std.specs.Prelude.{◌≡◌, IfErr, IfOk, None, Some, map, string_bytes};
ghost use Rattle.trace_shell.specs.Arguments.{ending_without, given_by};

use session_meaning::Ending;
use std::rt::Env;
use std::{env, io};

/// Why a program's arguments aren't to be had.
#[derive(Clone, Copy, Debug, PartialEq, Eq)]
pub enum Unread {
    /// One of them isn't UTF-8.
    NotText,
    /// There was no memory for them.
    Memory,
}

/// The arguments of the program: its name, and the words after it.
pub fn all_arguments<R: Env + AllocGlobal>(rt: &R) -> Result<Vec<String>, Unread> {
    match env::args(rt) {
        Ok(arguments) => arguments.collect(rt.alloc()).map_err(|_| Unread::Memory),
        Err(error) if error.kind() == io::ErrorKind::OutOfMemory => Err(Unread::Memory),
        Err(_) => Err(Unread::NotText),
    }
}

/// What the arguments of the program give.
#[derive(Debug, Drop)]
pub struct Given {
    /// The path of the folder in which the store lies.
    pub folder: String,
    /// The words of the command line.
    pub words: Vec<String>,
}

/// The folder and the words among the arguments of the program: its name, the store's folder, and then the words; or
/// how the program ends. Where the folder is missing or an argument isn't UTF-8 the command line is faulty.
pub fn folder_and_words(arguments: Result<Vec<String>, Unread>) -> Result<Given, Ending>
    ensures given { IfOk result (λ given.
        given_by arguments ≡ Some (string_bytes given.folder, map string_bytes given.words.items)) }
    ensures none { IfErr result
        (λ ending. (given_by arguments ≡ None) × (ending ≡ ending_without arguments)) }
{
    let mut arguments = match arguments {
        Ok(arguments) => arguments,
        Err(Unread::NotText) => return Err(Ending::BadWords),
        Err(Unread::Memory) => return Err(Ending::Starved),
    };
    if arguments.len() < 2 {
        return Err(Ending::BadWords);
    }
    let _program = arguments.remove(0);
    let folder = arguments.remove(0);
    Ok(Given {
        folder,
        words: arguments,
    })
}
