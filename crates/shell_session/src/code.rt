//! PayloadTypes of a shell session, by the names of amazon-ssm-agent and session-manager-plugin.

/// PayloadType of the bytes of a standard input or output.
pub(crate) const OUTPUT: u32 = 1;

/// PayloadType of a flag.
pub(crate) const FLAG: u32 = 10;

/// PayloadType of the bytes of a standard error.
pub(crate) const STD_ERR: u32 = 11;

/// PayloadType of the status of a program.
pub(crate) const EXIT_CODE: u32 = 12;
