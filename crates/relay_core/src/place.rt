//! Where a connection was let in.

use chan_values::Side;
use session_register::SessionName;

/// One of the two ends of a session.
#[derive(Clone, Copy, Debug)]
pub struct Place {
    /// The session.
    pub(crate) session: SessionName,
    /// The role.
    pub(crate) role: Side,
}
