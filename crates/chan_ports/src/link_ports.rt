//! Ports at which links come in.

ghost use Rattle.std.specs.Prelude.{◌≡◌, ◌≤◌, ℕ, List, Option, Some, IfOk, IfSome, OnOk, OnErr};
ghost use Rattle.chan_io.specs.Faults.{IfFailed, UnlessFailed, Rises};
ghost use Rattle.chan_io.specs.LinksIn.{unheard};
ghost use Rattle.chan_io.specs.declared.got.Got.{Got};
ghost use Rattle.chan_ports.specs.Fresh.{IsUnheard, IsUnsent};
ghost use Rattle.chan_ports.specs.Ports.{Accepts, Listens, Usage};

use chan_io::{Failed, IoFault, LinkIn, LinkOut};

/// Links that come in at a port of this machine, each of one connection.
pub trait LinkPorts {
    /// A link's receiving half.
    type In: LinkIn + Send + Drop;

    /// A link's sending half.
    type Out: LinkOut + Send + Drop;

    /// What was done there, where they tell; of each link, what its input is to answer.
    ghost usage: { Self → Option (Usage (List Got)) };

    /// How many of their calls failed, up to 2^64 - 1.
    ghost faults: { Self → ℕ };

    /// Listens at a port, at any free one for 0, and answers which.
    fn listen(&mut self, port: u16) -> Result<u16, Failed>
        ensures listens { Listens port result (usage self.old) (usage self.new) }
        ensures steady { OnOk result (faults self.new ≡ faults self.old) }
        ensures failed { OnErr result (Rises (faults self.old) (faults self.new)) }
        ensures counted { faults self.old ≤ faults self.new };

    /// Waits for a link for about 100 ms. Nothing is promised of the time. Where the answer is None, no
    /// connection came, or one that opened no link and was closed.
    fn accept(&mut self) -> Result<Option<(Self::In, Self::Out)>, IoFault>
        ensures accepts { Accepts (λ ends coming. Self.In.arrivals ends.0 ≡ Some (unheard coming))
            result (usage self.old) (usage self.new) }
        ensures unheard { IfOk result (λ came. IfSome came (λ ends.
            IsUnheard (Self.In.arrivals ends.0) (Self.In.faults ends.0))) }
        ensures unsent { IfOk result (λ came. IfSome came (λ ends.
            IsUnsent (Self.Out.departures ends.1) (Self.Out.faults ends.1))) }
        ensures steady { UnlessFailed result (faults self.new ≡ faults self.old) }
        ensures failed { IfFailed result (Rises (faults self.old) (faults self.new)) }
        ensures counted { faults self.old ≤ faults self.new };
}
