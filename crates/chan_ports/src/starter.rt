//! What starts children.

ghost use Rattle.std.specs.Prelude.{◌≡◌, ◌≤◌, ℕ, IfOk, OnOk, OnErr};
ghost use Rattle.chan_io.specs.Faults.{Rises};
ghost use Rattle.chan_ports.specs.Fresh.{IsUnread, IsUnwritten, IsUnwaited};

use crate::child::Child;
use crate::waited::Waited;
use chan_io::{Failed, Sink, Source, Text};

/// What starts programs. It tells nothing of them.
pub trait Starter {
    /// What a child reads from.
    type Stdin: Sink + Send + Drop;

    /// What a child writes.
    type Stdout: Source + Send + Drop;

    /// What a child reports.
    type Stderr: Source + Send + Drop;

    /// A child's end.
    type End: Waited + Send + Drop;

    /// How many of its starts failed, up to 2^64 - 1.
    ghost faults: { Self → ℕ };

    /// Starts a program without arguments. Where that fails no child was started.
    fn start(
        &mut self,
        program: &Text,
    ) -> Result<Child<Self::Stdin, Self::Stdout, Self::Stderr, Self::End>, Failed>
        ensures stdin { IfOk result (λ c. IsUnwritten (Self.Stdin.output c.stdin) (Self.Stdin.faults c.stdin)) }
        ensures stdout { IfOk result (λ c. IsUnread (Self.Stdout.input c.stdout) (Self.Stdout.faults c.stdout)) }
        ensures stderr { IfOk result (λ c. IsUnread (Self.Stderr.input c.stderr) (Self.Stderr.faults c.stderr)) }
        ensures end { IfOk result (λ c. IsUnwaited (Self.End.statuses c.end) (Self.End.faults c.end)) }
        ensures steady { OnOk result (faults self.new ≡ faults self.old) }
        ensures failed { OnErr result (Rises (faults self.old) (faults self.new)) }
        ensures counted { faults self.old ≤ faults self.new };
}
