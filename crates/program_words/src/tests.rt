//! Command lines with what they come to.

mod agent_lines;
mod plugin_lines;
mod relay_lines;
mod status_lines;
mod texts;

use crate::WordsFault;
use chan_values::Word;
use std::alloc::Global;
use std::test::Fail;

/// The words of a line that is cut at its spaces.
pub fn words_of(alloc: Global, line: &str) -> Result<Vec<Word>, Fail> {
    let mut words = Vec::new(alloc);
    for word in line.split_whitespace() {
        words.push(Word::new(String::from_str(alloc, word)?))?;
    }
    Ok(words)
}

/// Whether the words are no command line, told by a text that begins so and has this word.
pub fn is_usage<T>(read: &Result<T, WordsFault>, word: &str) -> bool {
    match read {
        Err(WordsFault::Usage(text)) => {
            text.as_str().starts_with("error: ") && text.as_str().contains(word)
        }
        _ => false,
    }
}

/// Whether the words ask for a text, which has this part.
pub fn is_asked<T>(read: &Result<T, WordsFault>, part: &str) -> bool {
    match read {
        Err(WordsFault::Asked(text)) => text.as_str().contains(part),
        _ => false,
    }
}
