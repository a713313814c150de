//! A script: the commands of its lines.

ghost use Rattle.std.specs.Prelude.{◌≡◌, ℕ, List, IfOk, IfSome, IfNone, Err};
ghost use Rattle.lab_script.specs.Lines.{lines_of};
ghost use Rattle.lab_cmd.specs.Script.{IsFirstBad, IsScript};

use chan_values::NoMemory;
use lab_script::{Command, Lines, RelayCommand, StreamCommand, parse, parse_relay, parse_stream};
use std::alloc::{AllocFailed, Global};

/// A command of a script, by the grammar of its lines.
pub trait Line: Sized + Drop {
    /// The one text of the command.
    ghost spelling: { Self → List ℕ };

    /// Its numbers and bytes are in range.
    ghost in_range: { Self → Type 0 };

    /// The line is one of the grammar.
    ghost is_line: { List ℕ → Type 0 };

    /// The command that a line says. `None`: the line is out of the grammar.
    fn read(alloc: Global, line: &[u8]) -> Result<Option<Self>, NoMemory>
        ensures found { IfOk result (λ read. IfSome read (λ command.
            in_range command × (spelling command ≡ line.now))) }
        ensures none { IfOk result (λ read. IfNone read (¬ is_line line.now)) };

    ghost spells_line: { (command : Self) → in_range command → is_line (spelling command) };
}

impl Line for Command {
    ghost use Rattle.std.specs.Prelude.{refl};
    ghost use Rattle.lab_script.specs.Command.{IsCommand, IsScriptLine, spelling};

    ghost spelling = { spelling };

    ghost in_range = { IsCommand };

    ghost is_line = { IsScriptLine };

    ghost spells_line = { λ command fits.
        (command, record { in_range = fits; spelled = refl }) };

    fn read(alloc: Global, line: &[u8]) -> Result<Option<Command>, NoMemory> {
        parse(alloc, line)
    }
}

impl Line for StreamCommand {
    ghost use Rattle.std.specs.Prelude.{refl};
    ghost use Rattle.lab_script.specs.StreamCommand.{IsStreamCommand, IsStreamLine, stream_spelling};

    ghost spelling = { stream_spelling };

    ghost in_range = { IsStreamCommand };

    ghost is_line = { IsStreamLine };

    ghost spells_line = { λ command fits.
        (command, record { in_range = fits; spelled = refl }) };

    fn read(alloc: Global, line: &[u8]) -> Result<Option<StreamCommand>, NoMemory> {
        parse_stream(alloc, line)
    }
}

impl Line for RelayCommand {
    ghost use Rattle.std.specs.Prelude.{refl};
    ghost use Rattle.lab_script.specs.RelayCommand.{IsRelayCommand, IsRelayLine, relay_spelling};

    ghost spelling = { relay_spelling };

    ghost in_range = { IsRelayCommand };

    ghost is_line = { IsRelayLine };

    ghost spells_line = { λ command fits.
        (command, record { in_range = fits; spelled = refl }) };

    fn read(alloc: Global, line: &[u8]) -> Result<Option<RelayCommand>, NoMemory> {
        parse_relay(alloc, line)
    }
}

/// Why there is no script.
#[derive(Clone, Copy, Debug, PartialEq, Eq)]
pub enum ScriptFault {
    /// The line of this number, from 1, is the first that is out of the grammar.
    Line(u64),
    /// There was no memory for its commands.
    NoMemory,
}

impl From<NoMemory> for ScriptFault {
    ghost use Rattle.std.specs.Prelude.{◌≡◌};
    ghost use Rattle.lab_cmd.specs.declared.script.ScriptFault.TheVariants as ScriptFault;

    ghost from_gives = { λ _ fault. fault ≡ ScriptFault.NoMemory };

    fn from(_: NoMemory) -> ScriptFault {
        ScriptFault::NoMemory
    }
}

impl<T: Drop> From<AllocFailed<T>> for ScriptFault {
    ghost use Rattle.std.specs.Prelude.{◌≡◌};
    ghost use Rattle.lab_cmd.specs.declared.script.ScriptFault.TheVariants as ScriptFault;

    ghost from_gives = { λ _ fault. fault ≡ ScriptFault.NoMemory };

    fn from(_: AllocFailed<T>) -> ScriptFault {
        ScriptFault::NoMemory
    }
}

/// The commands of an input's lines.
pub fn read_script<C: Line>(alloc: Global, input: &[u8]) -> Result<Vec<C>, ScriptFault>
    ensures script { IfOk result (λ commands.
        IsScript C.spelling C.in_range commands.items input.now) }
    ensures bad { (n : ℕ) → result ≡ Err (ScriptFault.Line n)
        → IsFirstBad C.is_line n (lines_of input.now) }
{
    let mut commands = Vec::new(alloc);
    for line in Lines::new(input) {
        match C::read(alloc, line)? {
            Some(command) => commands.push(command)?,
            None => return Err(ScriptFault::Line(commands.len() as u64 + 1)),
        }
    }
    Ok(commands)
}
