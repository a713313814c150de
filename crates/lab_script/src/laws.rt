//! The laws of the grammars: a line says one command at most.

ghost use Rattle.std.specs.Prelude.{◌≡◌, ℕ, List};
ghost use Rattle.lab_script.specs.declared.command.Command.{Command};
ghost use Rattle.lab_script.specs.declared.relay_command.RelayCommand.{RelayCommand};
ghost use Rattle.lab_script.specs.declared.stream_command.StreamCommand.{StreamCommand};
ghost use Rattle.lab_script.specs.Command.{Says};
ghost use Rattle.lab_script.specs.RelayCommand.{SaysRelay};
ghost use Rattle.lab_script.specs.StreamCommand.{SaysStream};

/// A line says one command at most.
pub fn a_line_says_one_command()
    ensures { (line : List ℕ) (a b : Command) → Says line a → Says line b → a ≡ b }
{}

/// So it does where the ends carry streams.
pub fn a_line_says_one_stream_command()
    ensures { (line : List ℕ) (a b : StreamCommand) → SaysStream line a → SaysStream line b → a ≡ b }
{}

/// So it does where the relay stands between the ends.
pub fn a_line_says_one_relay_command()
    ensures { (line : List ℕ) (a b : RelayCommand) → SaysRelay line a → SaysRelay line b → a ≡ b }
{}
