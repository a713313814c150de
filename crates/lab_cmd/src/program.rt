//! The program `lab`.

ghost use Rattle.std.specs.Prelude.{◌≡◌, ◌+◌, ◌≤◌, ◌⊎◌, ◌↔◌, ℕ, Option, Some};
ghost use Rattle.chan_io.specs.Faults.{Rises};
ghost use Rattle.chan_io.specs.Sources.{Input};
ghost use Rattle.lab_cmd.specs.declared.status.Status.{Status};
ghost use Rattle.lab_cmd.specs.declared.words.Mode.{Mode};
ghost use Rattle.lab_cmd.specs.declared.words.Task.{Task};
ghost use Rattle.lab_cmd.specs.Inputs.{GivesAtMost, max_input};
ghost use Rattle.lab_cmd.specs.Laws.{LabLaws};
ghost use Rattle.lab_cmd.specs.Meanings.{IsDue, Means, MeansMade, MeansRead, beside, made_line, outside};
ghost use Rattle.lab_cmd.specs.Statuses.{status_of};
ghost use Rattle.lab_cmd.specs.Words.{IsMode, IsRounds, IsWindow, IsWords, IsWordsFault};

use crate::input::read_input;
use crate::script::read_script;
use crate::status::Status;
use crate::words::{Mode, Task, read_words};
use chan_io::{Sink, Source};
use chan_values::Word;
use lab_audit::judge;
use lab_gen::run_generated;
use lab_journal::run_journal;
use lab_script::{Command, RelayCommand, StreamCommand};
use lab_show::show;
use std::alloc::Global;

/// Reads a script from the source, runs it on a plugin's end and an agent's end, and writes the
/// report or the journal of the run to the sink; or reads a journal, and writes the line of its totals
/// if it is accepted; or reads a capture, and writes a line for each of its messages; or reads nothing,
/// runs a script that makes itself, and writes one line. Nothing is read or written where the words are
/// no command line, and nothing is written before the whole input was read and a script judged.
///
/// `means` says what each other status means in the mode that the words ask for. Where no call of the
/// outside fails, the status that is due comes, or memory was wanted (`complete`). `laws` holds of every
/// script; with `means` it speaks of the report that was written.
pub fn lab<S: Source, K: Sink>(
    alloc: Global,
    words: &[Word],
    source: &mut S,
    sink: &mut K,
) -> Status
    ensures usage { (k : ℕ) → (result ≡ Status.Usage k) ↔ IsWordsFault words.now k }
    ensures untouched { (k : ℕ) → result ≡ Status.Usage k
        → (source.new ≡ source.old) × (sink.new ≡ sink.old) }
    ensures means { (mode : Mode) → IsWords mode words.now
        → let at = outside S.input S.faults K.output K.faults in
        Means mode result (sink.new ≡ sink.old) (at source.old sink.old) (at source.new sink.new) }
    ensures complete { (before : Input) (due : Status)
        → S.input source.old ≡ Some before → IsDue words.now before.left due
        → ¬ Rises (S.faults source.old) (S.faults source.new)
        → ¬ Rises (K.faults sink.old) (K.faults sink.new)
        → (result ≡ due) ⊎ (result ≡ Status.NoMemory) }
    ensures laws { LabLaws }
    ensures bounded { GivesAtMost (max_input + 1) (S.input source.old) (S.input source.new) }
    ensures reads_counted { S.faults source.old ≤ S.faults source.new }
    ensures writes_counted { K.faults sink.old ≤ K.faults sink.new }
{
    match read_words(words) {
        Err(k) => Status::Usage(k),
        Ok(mode) => match run_mode(alloc, mode, source, sink) {
            Ok(()) => Status::Ok,
            Err(status) => status,
        },
    }
}

/// Does what the words ask for. A status is that of the first fault.
fn run_mode<S: Source, K: Sink>(
    alloc: Global,
    mode: Mode,
    source: &mut S,
    sink: &mut K,
) -> Result<(), Status>
    requires { IsMode mode }
    ensures means { let at = outside S.input S.faults K.output K.faults in
        Means mode (status_of result) (sink.new ≡ sink.old)
        (at source.old sink.old) (at source.new sink.new) }
    ensures bounded { GivesAtMost (max_input + 1) (S.input source.old) (S.input source.new) }
    ensures reads_counted { S.faults source.old ≤ S.faults source.new }
    ensures writes_counted { K.faults sink.old ≤ K.faults sink.new }
{
    match mode {
        Mode::Windowed { task, window } => {
            let input = read_input(alloc, source)?;
            report(alloc, task, window, &input, sink)
        }
        Mode::Show => {
            let input = read_input(alloc, source)?;
            list(alloc, &input, sink)
        }
        Mode::Gen { rounds, start } => generate(alloc, rounds, start, sink),
    }
}

/// Writes what a task writes of the input, for two ends with this window.
fn report<K: Sink>(
    alloc: Global,
    task: Task,
    window: u64,
    input: &[u8],
    sink: &mut K,
) -> Result<(), Status>
    requires { IsWindow window }
    ensures means { MeansRead (Mode.Windowed task window) input.now (status_of result)
        (sink.new ≡ sink.old)
        (K.output sink.old) (K.faults sink.old) (K.output sink.new) (K.faults sink.new) }
    ensures counted { K.faults sink.old ≤ K.faults sink.new }
{
    match task {
        Task::Plain => report_plain(alloc, window, input, sink),
        Task::Streams => report_streams(alloc, window, input, sink),
        Task::Relay => report_relayed(alloc, window, input, sink),
        Task::Journal => write_journal(alloc, window, input, sink),
        Task::Audit => tell_verdict(alloc, window, input, sink),
    }
}

fn report_plain<K: Sink>(
    alloc: Global,
    window: u64,
    input: &[u8],
    sink: &mut K,
) -> Result<(), Status>
    requires { IsWindow window }
    ensures means { MeansRead (Mode.Windowed Task.Plain window) input.now (status_of result)
        (sink.new ≡ sink.old)
        (K.output sink.old) (K.faults sink.old) (K.output sink.new) (K.faults sink.new) }
    ensures counted { K.faults sink.old ≤ K.faults sink.new }
{
    let commands: Vec<Command> = read_script(alloc, input)?;
    lab_run::run(alloc, window, commands, sink)?;
    Ok(())
}

fn report_streams<K: Sink>(
    alloc: Global,
    window: u64,
    input: &[u8],
    sink: &mut K,
) -> Result<(), Status>
    requires { IsWindow window }
    ensures means { MeansRead (Mode.Windowed Task.Streams window) input.now (status_of result)
        (sink.new ≡ sink.old)
        (K.output sink.old) (K.faults sink.old) (K.output sink.new) (K.faults sink.new) }
    ensures counted { K.faults sink.old ≤ K.faults sink.new }
{
    let commands: Vec<StreamCommand> = read_script(alloc, input)?;
    lab_streams::run(alloc, window, commands, sink)?;
    Ok(())
}

fn report_relayed<K: Sink>(
    alloc: Global,
    window: u64,
    input: &[u8],
    sink: &mut K,
) -> Result<(), Status>
    requires { IsWindow window }
    ensures means { MeansRead (Mode.Windowed Task.Relay window) input.now (status_of result)
        (sink.new ≡ sink.old)
        (K.output sink.old) (K.faults sink.old) (K.output sink.new) (K.faults sink.new) }
    ensures counted { K.faults sink.old ≤ K.faults sink.new }
{
    let commands: Vec<RelayCommand> = read_script(alloc, input)?;
    lab_relay::run(alloc, window, commands, sink)?;
    Ok(())
}

/// Writes the journal of the script that the input is.
fn write_journal<K: Sink>(
    alloc: Global,
    window: u64,
    input: &[u8],
    sink: &mut K,
) -> Result<(), Status>
    requires { IsWindow window }
    ensures means { MeansRead (Mode.Windowed Task.Journal window) input.now (status_of result)
        (sink.new ≡ sink.old)
        (K.output sink.old) (K.faults sink.old) (K.output sink.new) (K.faults sink.new) }
    ensures counted { K.faults sink.old ≤ K.faults sink.new }
{
    let commands: Vec<Command> = read_script(alloc, input)?;
    run_journal(alloc, window, commands, sink)?;
    Ok(())
}

/// Writes the line of the journal that the input is, if it is accepted.
fn tell_verdict<K: Sink>(
    alloc: Global,
    window: u64,
    input: &[u8],
    sink: &mut K,
) -> Result<(), Status>
    requires { IsWindow window }
    ensures means { MeansRead (Mode.Windowed Task.Audit window) input.now (status_of result)
        (sink.new ≡ sink.old)
        (K.output sink.old) (K.faults sink.old) (K.output sink.new) (K.faults sink.new) }
    ensures counted { K.faults sink.old ≤ K.faults sink.new }
{
    judge(alloc, window, input, sink)?;
    Ok(())
}

/// Writes the lines of the capture that the input is.
fn list<K: Sink>(alloc: Global, input: &[u8], sink: &mut K) -> Result<(), Status>
    ensures means { MeansRead Mode.Show input.now (status_of result) (sink.new ≡ sink.old)
        (K.output sink.old) (K.faults sink.old) (K.output sink.new) (K.faults sink.new) }
    ensures counted { K.faults sink.old ≤ K.faults sink.new }
{
    show(alloc, input, sink)?;
    Ok(())
}

/// Runs a script that makes itself, and writes its line.
fn generate<K: Sink>(alloc: Global, rounds: u64, start: u64, sink: &mut K) -> Result<(), Status>
    requires { IsRounds rounds }
    ensures means { (input : Option Input) (reads : ℕ)
        → let at = beside input reads in
        MeansMade (made_line rounds start) (status_of result)
        (at (K.output sink.old) (K.faults sink.old)) (at (K.output sink.new) (K.faults sink.new)) }
    ensures counted { K.faults sink.old ≤ K.faults sink.new }
{
    run_generated(alloc, rounds, start, sink)?;
    Ok(())
}
