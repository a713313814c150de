//! The session that a handshake is about.

ghost use Rattle.std.specs.Prelude.{◌≡◌};

use json_bodies::Properties;

/// The name of a session with the streams of a program.
const STANDARD: &str = "Standard_Stream";

/// The name of a session with connections to a port.
const PORT: &str = "Port";

/// SessionType: what a session carries.
#[derive(Clone, Copy, Debug, PartialEq, Eq)]
pub enum SessionType {
    /// "Standard_Stream": the input and the output of a program.
    Standard,
    /// "Port": the bytes of connections to a port of the agent's side.
    Port,
}

/// A session: what the agent asks for, and what both sides agree on.
#[derive(Debug, Drop)]
pub struct Agreed {
    /// SessionType of the requested action.
    pub session: SessionType,
    /// Properties of the requested action.
    pub properties: Properties,
}

impl SessionType {
    ghost use Rattle.handshake.specs.Sessions.{session_type, type_name};

    /// The name as it stands in a request.
    pub fn name(self) -> &'static str
        ensures { result.now ≡ type_name self }
    {
        match self {
            SessionType::Standard => STANDARD,
            SessionType::Port => PORT,
        }
    }

    /// The type of this name, if it is one of the two.
    pub fn of_name(name: &str) -> Option<SessionType>
        ensures { result ≡ session_type name.now }
    {
        if name == STANDARD {
            Some(SessionType::Standard)
        } else if name == PORT {
            Some(SessionType::Port)
        } else {
            None
        }
    }
}
