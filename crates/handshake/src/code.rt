//! The codes in the items of a handshake, by the names of amazon-ssm-agent and session-manager-plugin.

/// PayloadType of a handshake request.
pub(crate) const HANDSHAKE_REQUEST: u32 = 5;

/// PayloadType of a handshake response.
pub(crate) const HANDSHAKE_RESPONSE: u32 = 6;

/// PayloadType of the end of a handshake.
pub(crate) const HANDSHAKE_COMPLETE: u32 = 7;

/// ActionType of the action that begins a session.
pub(crate) const SESSION_ACTION: &str = "SessionType";

/// ActionStatus: the action succeeded.
pub(crate) const SUCCESS: u8 = 1;

/// ActionStatus: the action is not supported.
pub(crate) const UNSUPPORTED: u8 = 3;
