//! The words behind the program's name.

ghost use Rattle.std.specs.Prelude.{◌≡◌, ◌≢◌, ◌∷◌, [], codes, ℕ, IfOk, IfErr, IfSome, IfNone, decimal};
ghost use Rattle.lab_cmd.specs.declared.words.Task.{Task};
ghost use Rattle.lab_cmd.specs.Words.{IsNoOption, IsRounds, IsWindow, IsWords, IsWordsFault, task_words};

use chan_values::{MAX_WINDOW, Word};
use lab_gen::MAX_ROUNDS;
use lab_script::read_number;

/// The window of both ends where no word says another.
const DEFAULT_WINDOW: u64 = 10_000;

/// What is done with the input, for two ends with a window.
#[derive(Clone, Copy, Debug, PartialEq, Eq)]
pub enum Task {
    /// A script is run, and its report is written.
    Plain,
    /// A script whose ends carry streams is run, and its report is written.
    Streams,
    /// A script whose ends reach each other through the relay is run, and its report is written.
    Relay,
    /// A script is run, and the journal of what both ends did is written.
    Journal,
    /// A journal of what both ends did is judged, and the line of its totals is written.
    Audit,
}

/// What the words ask the program for.
#[derive(Clone, Copy, Debug, PartialEq, Eq)]
pub enum Mode {
    /// To do this with the input, for two ends with this window.
    Windowed { task: Task, window: u64 },
    /// To list the messages of the capture that the input is.
    Show,
    /// To run a script that makes itself in so many rounds from a start.
    Gen { rounds: u64, start: u64 },
}

/// The mode that the words ask for, or the number of words that still begin a command line.
pub fn read_words(words: &[Word]) -> Result<Mode, u64>
    ensures mode { IfOk result (λ mode. IsWords mode words.now) }
    ensures fault { IfErr result (λ k. IsWordsFault words.now k) }
{
    let Some((option, operands)) = words.split_first() else {
        return Ok(Mode::Windowed {
            task: Task::Plain,
            window: DEFAULT_WINDOW,
        });
    };
    if option.as_str() == "--window" {
        return read_windowed(operands);
    }
    if option.as_str() == "--gen" {
        return read_generated(operands);
    }
    let Some(mode) = read_alone(option) else {
        return Err(0);
    };
    if !operands.is_empty() {
        return Err(1);
    }
    Ok(mode)
}

/// The mode that a word asks for alone.
fn read_alone(option: &Word) -> Option<Mode>
    ensures found { IfSome result (λ mode. IsWords mode (option.now ∷ [])) }
    ensures none { IfNone result (IsNoOption option.now) }
{
    if option.as_str() == "--show" {
        return Some(Mode::Show);
    }
    let Some(task) = read_task(option) else {
        return None;
    };
    Some(Mode::Windowed {
        task,
        window: DEFAULT_WINDOW,
    })
}

/// The task that a word names.
fn read_task(word: &Word) -> Option<Task>
    ensures found { IfSome result (λ task. task_words task ≡ word.now ∷ []) }
    ensures none { IfNone result ((task : Task) → task_words task ≢ word.now ∷ []) }
{
    if word.as_str() == "--streams" {
        return Some(Task::Streams);
    }
    if word.as_str() == "--relay" {
        return Some(Task::Relay);
    }
    if word.as_str() == "--journal" {
        return Some(Task::Journal);
    }
    if word.as_str() == "--audit" {
        return Some(Task::Audit);
    }
    None
}

/// The mode that `--window` and these words ask for, or the number of words, `--window` among them, that
/// still begin a command line.
fn read_windowed(operands: &[Word]) -> Result<Mode, u64>
    ensures mode { IfOk result (λ mode. IsWords mode (codes "--window" ∷ operands.now)) }
    ensures fault { IfErr result (λ k. IsWordsFault (codes "--window" ∷ operands.now) k) }
{
    let Some((number, more)) = operands.split_first() else {
        return Err(1);
    };
    let Some(window) = read_window(number) else {
        return Err(1);
    };
    let Some((name, rest)) = more.split_first() else {
        return Ok(Mode::Windowed {
            task: Task::Plain,
            window,
        });
    };
    let Some(task) = read_task(name) else {
        return Err(2);
    };
    if !rest.is_empty() {
        return Err(3);
    }
    Ok(Mode::Windowed { task, window })
}

/// The window that a word says.
fn read_window(word: &Word) -> Option<u64>
    ensures found { IfSome result (λ n. IsWindow n × (decimal n ≡ word.now)) }
    ensures none { IfNone result ((n : ℕ) → IsWindow n → decimal n ≢ word.now) }
{
    let window = read_number(word.as_str().as_bytes())?;
    if window == 0 || window > MAX_WINDOW {
        return None;
    }
    Some(window)
}

/// The mode that `--gen` and these words ask for, or the number of words, `--gen` among them, that still
/// begin a command line.
fn read_generated(operands: &[Word]) -> Result<Mode, u64>
    ensures mode { IfOk result (λ mode. IsWords mode (codes "--gen" ∷ operands.now)) }
    ensures fault { IfErr result (λ k. IsWordsFault (codes "--gen" ∷ operands.now) k) }
{
    let Some((count, more)) = operands.split_first() else {
        return Err(1);
    };
    let Some(rounds) = read_rounds(count) else {
        return Err(1);
    };
    let Some((first, rest)) = more.split_first() else {
        return Err(2);
    };
    let Some(start) = read_number(first.as_str().as_bytes()) else {
        return Err(2);
    };
    if !rest.is_empty() {
        return Err(3);
    }
    Ok(Mode::Gen { rounds, start })
}

/// The number of rounds that a word says.
fn read_rounds(word: &Word) -> Option<u64>
    ensures found { IfSome result (λ n. IsRounds n × (decimal n ≡ word.now)) }
    ensures none { IfNone result ((n : ℕ) → IsRounds n → decimal n ≢ word.now) }
{
    let rounds = read_number(word.as_str().as_bytes())?;
    if rounds == 0 || rounds > MAX_ROUNDS {
        return None;
    }
    Some(rounds)
}
