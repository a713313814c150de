//! TCP ports of this machine.

ghost use Rattle.std.specs.Prelude.{◌≡◌, ◌≤◌, ℕ, Option, IfOk, IfSome, OnOk, OnErr};
ghost use Rattle.chan_io.specs.Faults.{Rises};
ghost use Rattle.chan_ports.specs.Fresh.{IsUnread, IsUnwritten};
ghost use Rattle.chan_ports.specs.Ports.{Accepts, Connects, Listens, Usage};
ghost use Rattle.chan_ports.specs.declared.connection.Connection.{Connection};

use chan_io::{Failed, Sink, Source};

/// Connections of bytes at the ports of this machine, each with a receiving and a sending half.
pub trait Ports {
    /// A connection's receiving half.
    type In: Source + Send + Drop;

    /// A connection's sending half.
    type Out: Sink + Send + Drop;

    /// What was done there, where they tell.
    ghost usage: { Self → Option (Usage Connection) };

    /// How many of their calls failed, up to 2^64 - 1.
    ghost faults: { Self → ℕ };

    /// Listens at a port, at any free one for 0, and answers which.
    fn listen(&mut self, port: u16) -> Result<u16, Failed>
        ensures listens { Listens port result (usage self.old) (usage self.new) }
        ensures steady { OnOk result (faults self.new ≡ faults self.old) }
        ensures failed { OnErr result (Rises (faults self.old) (faults self.new)) }
        ensures counted { faults self.old ≤ faults self.new };

    /// Waits for a connection for about 100 ms. Nothing is promised of the time. None came where the
    /// answer is None.
    fn accept(&mut self) -> Result<Option<(Self::In, Self::Out)>, Failed>
        ensures accepts { Accepts (λ _ c. c ≡ Connection.Accepted) result (usage self.old) (usage self.new) }
        ensures unread { IfOk result (λ came. IfSome came (λ ends.
            IsUnread (Self.In.input ends.0) (Self.In.faults ends.0))) }
        ensures unwritten { IfOk result (λ came. IfSome came (λ ends.
            IsUnwritten (Self.Out.output ends.1) (Self.Out.faults ends.1))) }
        ensures steady { OnOk result (faults self.new ≡ faults self.old) }
        ensures failed { OnErr result (Rises (faults self.old) (faults self.new)) }
        ensures counted { faults self.old ≤ faults self.new };

    /// Connects to a port of this machine.
    fn connect(&mut self, port: u16) -> Result<(Self::In, Self::Out), Failed>
        ensures connects { Connects port result (usage self.old) (usage self.new) }
        ensures unread { IfOk result (λ ends. IsUnread (Self.In.input ends.0) (Self.In.faults ends.0)) }
        ensures unwritten { IfOk result (λ ends.
            IsUnwritten (Self.Out.output ends.1) (Self.Out.faults ends.1)) }
        ensures steady { OnOk result (faults self.new ≡ faults self.old) }
        ensures failed { OnErr result (Rises (faults self.old) (faults self.new)) }
        ensures counted { faults self.old ≤ faults self.new };
}
