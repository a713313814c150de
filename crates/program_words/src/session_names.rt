//! The names of the sessions that a relay serves.

ghost use Rattle.std.specs.Prelude.{◌≡◌, ◌≤◌, ◌==◌, ℕ, List, length, map, IfOk, MatchOption};
ghost use Rattle.std.specs.List.{slice_split};
ghost use Rattle.program_words.specs.SessionLists.{AreSessions, IsListOf};

use chan_values::NoMemory;
use session_register::SessionName;
use std::alloc::{AllocError, Global};
use std::marker::Model;

/// The most sessions of one relay.
pub const MAX_SESSIONS: usize = 64;

/// 1 to 64 different names of sessions, as contracts see them: the list of their texts.
#[derive(Debug, Drop)]
pub struct SessionNames {
    names: Vec<SessionName>,
}

impl Model for SessionNames {
    ghost use Rattle.std.specs.Prelude.{List, ℕ};
    ghost use Rattle.program_words.specs.SessionLists.{AreSessions};

    ghost Value = { List (List ℕ) };

    ghost view = { λ s. s.names.items };

    ghost invariant = { λ s. AreSessions s.names.items };
}

impl SessionNames {
    /// The names that a text has, with a comma between each two.
    pub fn read(alloc: Global, text: &str) -> Result<Option<SessionNames>, NoMemory>
        ensures { IfOk result (λ found. MatchOption found
            ((names : List (List ℕ)) → ¬ IsListOf names text.now)
            (λ names. IsListOf names text.now)) }
    {
        let parts = parts_of(alloc, text)?;
        match names_of(alloc, parts.as_slice())? {
            Some(names) => Ok(Some(SessionNames { names })),
            None => Ok(None),
        }
    }

    /// The names in place, in the order of the text.
    pub fn as_slice(&self) -> &[SessionName]
        ensures value { result.now ≡ self.now }
        ensures valid { AreSessions self.now }
    {
        self.names.as_slice()
    }
}

/// The parts of a text between its commas.
fn parts_of(alloc: Global, text: &str) -> Result<Vec<&str>, AllocError>
    ensures { IfOk result (λ parts.
        map (λ s. s.now) parts.items ≡ slice_split (λ b. b == 44) text.now) }
{
    text.split(',').collect(alloc)
}

/// The names that the parts are, where they may be those of one relay.
fn names_of(alloc: Global, parts: &[&str]) -> Result<Option<Vec<SessionName>>, NoMemory>
    requires { 1 ≤ length parts.now }
    ensures { IfOk result (λ found. MatchOption found
        (¬ AreSessions (map (λ s. s.now) parts.now))
        (λ names. AreSessions names.items × (names.items ≡ map (λ s. s.now) parts.now))) }
{
    let mut names = Vec::new(alloc);
    for part in parts {
        let Some(name) = SessionName::new(part.as_bytes()) else {
            return Ok(None);
        };
        if names.len() == MAX_SESSIONS || names.contains(&name) {
            return Ok(None);
        }
        names.push(name)?;
    }
    Ok(Some(names))
}
