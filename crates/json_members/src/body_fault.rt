//! Why bytes are no JSON body.

use crate::member::Member;
use chan_values::NoMemory;
use std::alloc::{AllocError, AllocFailed};

/// Why bytes are not the body that was asked for: the first fault in the order of the body's table.
#[derive(Clone, Copy, Debug, PartialEq, Eq)]
pub enum BodyFault {
    /// `serde_json` refuses the bytes.
    NotJson,
    /// They hold another value than an object.
    NotObject,
    /// The member is not there.
    Missing(Member),
    /// The member's value is of another kind than the table's.
    Kind(Member),
    /// The member's value is of the table's kind, and out of its range.
    Range(Member),
    /// There was no memory for the answer.
    NoMemory,
}

impl From<NoMemory> for BodyFault {
    ghost use Rattle.json_members.specs.declared.body_fault.BodyFault.TheVariants.{NoMemory as no_memory};
    ghost use Rattle.std.specs.Prelude.{◌≡◌};

    ghost from_gives = { λ _ fault. fault ≡ no_memory };

    fn from(_: NoMemory) -> BodyFault {
        BodyFault::NoMemory
    }
}

impl From<AllocError> for BodyFault {
    ghost use Rattle.json_members.specs.declared.body_fault.BodyFault.TheVariants.{NoMemory as no_memory};
    ghost use Rattle.std.specs.Prelude.{◌≡◌};

    ghost from_gives = { λ _ fault. fault ≡ no_memory };

    fn from(_: AllocError) -> BodyFault {
        BodyFault::NoMemory
    }
}

impl<T: Drop> From<AllocFailed<T>> for BodyFault {
    ghost use Rattle.json_members.specs.declared.body_fault.BodyFault.TheVariants.{NoMemory as no_memory};
    ghost use Rattle.std.specs.Prelude.{◌≡◌};

    ghost from_gives = { λ _ fault. fault ≡ no_memory };

    fn from(_: AllocFailed<T>) -> BodyFault {
        BodyFault::NoMemory
    }
}
