//! The words behind the program's name.

use chan_values::{NoMemory, Text, Word};
use std::alloc::Global;
use std::rt::{Env, Files};
use std::{env, fs};

/// Where the system tells the command line as bytes, each word ended by the byte 0.
const COMMAND_LINE: &str = "/proc/self/cmdline";

/// The words of the command line. Bytes that are not UTF-8 have the replacement character in their
/// place, which is in no word of the grammar.
pub fn words(rt: &(impl Env + Files + AllocGlobal)) -> Result<Vec<Word>, NoMemory> {
    let Ok(args) = env::args(rt) else {
        return match fs::read(rt, COMMAND_LINE) {
            Ok(line) => words_of(rt.alloc(), &line),
            Err(_) => Err(NoMemory),
        };
    };
    let mut words = Vec::new(rt.alloc());
    for word in args.skip(1) {
        words.push(Text::new(word))?;
    }
    Ok(words)
}

/// The words of a command line as the system tells it, without the program's name.
fn words_of(alloc: Global, line: &[u8]) -> Result<Vec<Word>, NoMemory> {
    let mut words = Vec::new(alloc);
    let line = line.strip_suffix(b"\0").unwrap_or(line);
    for word in line.split(|byte| *byte == 0).skip(1) {
        words.push(Text::new(String::from_utf8_lossy(alloc, word)?))?;
    }
    Ok(words)
}
