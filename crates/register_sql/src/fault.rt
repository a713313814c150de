//! How a statement ends without its answer.

ghost use Rattle.std.specs.Prelude.{◌≡◌, ◌↔◌};
ghost use Rattle.sqlite.specs.declared.error.ErrorCode.TheVariants.{OutOfMemory};

use chan_io::IoFault;
use sqlite::{Error, ErrorCode};

/// A statement ended without its answer.
#[derive(Clone, Copy, Debug, PartialEq, Eq, thiserror::Error)]
pub enum SqlFault {
    /// It was refused, or gave a value that is not of its column's type.
    #[error("the statement was refused")]
    Refused,
    /// There was no memory.
    #[error("there was no memory for the statement")]
    NoMemory,
}

/// What a keeper over the store tells of it: a refusal is a failed call.
impl From<SqlFault> for IoFault {
    ghost use Rattle.std.specs.Prelude.{◌≡◌};
    ghost use Rattle.register_sql.specs.Faults.{io_fault};

    ghost from_gives = { λ fault told. told ≡ io_fault fault };

    fn from(fault: SqlFault) -> IoFault {
        match fault {
            SqlFault::Refused => IoFault::Failed,
            SqlFault::NoMemory => IoFault::NoMemory,
        }
    }
}

/// The fault of a statement that ended with this error.
pub(crate) fn fault_of(error: Error) -> SqlFault
    ensures { (result ≡ SqlFault.NoMemory) ↔ (error ≡ Error.SqliteFailure OutOfMemory) }
{
    match error {
        Error::SqliteFailure(ErrorCode::OutOfMemory) => SqlFault::NoMemory,
        _ => SqlFault::Refused,
    }
}
