//! What keeps the rows of a register.

ghost use Rattle.std.specs.Prelude.{◌≡◌, ◌≤◌, ℕ, List, Option, IfOk, IfSome, IsErrOf, OnErr, OnOk};
ghost use Rattle.chan_io.specs.Faults.{Rises};
ghost use Rattle.session_register.specs.declared.row.Row.{Row};
ghost use Rattle.session_register.specs.Rows.{Finds, IsRow, Puts};
ghost use Rattle.session_register.specs.Sessions.{HaveDifferentSessions};

use crate::name::SessionName;
use crate::row::Row;
use chan_io::IoFault;
use std::alloc::Global;

/// A store of rows, one for each session.
pub trait Keeper {
    /// Its rows, with different sessions, where it tells them.
    ghost rows: { Self → Option (List Row) };

    /// How many of its calls failed, up to 2^64 - 1.
    ghost faults: { Self → ℕ };

    /// The row of a session, if there is one.
    fn get(&mut self, alloc: Global, session: &SessionName) -> Result<Option<Row>, IoFault>
        ensures found { IfOk result (λ row. Finds (rows self.old) session.now row) }
        ensures kept { IfOk result (λ row. IfSome row IsRow) }
        ensures same { rows self.new ≡ rows self.old }
        ensures differ { IfSome (rows self.new) HaveDifferentSessions }
        ensures steady { OnOk result (faults self.new ≡ faults self.old) }
        ensures lacking { IsErrOf result IoFault.NoMemory → faults self.new ≡ faults self.old }
        ensures failed { IsErrOf result IoFault.Failed → Rises (faults self.old) (faults self.new) }
        ensures counted { faults self.old ≤ faults self.new };

    /// Puts a row in the place of the one of its session, or adds it.
    fn put(&mut self, alloc: Global, row: Row) -> Result<(), IoFault>
        requires { IsRow row }
        ensures puts { OnOk result (Puts row (rows self.old) (rows self.new)) }
        ensures same { OnErr result (rows self.new ≡ rows self.old) }
        ensures differ { IfSome (rows self.new) HaveDifferentSessions }
        ensures steady { OnOk result (faults self.new ≡ faults self.old) }
        ensures lacking { IsErrOf result IoFault.NoMemory → faults self.new ≡ faults self.old }
        ensures failed { IsErrOf result IoFault.Failed → Rises (faults self.old) (faults self.new) }
        ensures counted { faults self.old ≤ faults self.new };

    /// The count of its faults.
    fn faults(&self) -> u64
        ensures { result ≡ faults self.now };
}
