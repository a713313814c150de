//! The members of the JSON bodies, by the names of amazon-ssm-agent and session-manager-plugin.

ghost use Rattle.std.specs.Prelude.{◌≡◌};

/// The name of a member.
#[derive(Clone, Copy, Debug, PartialEq, Eq)]
pub enum Member {
    /// Of an acknowledgement: the MessageId of the message acknowledged.
    AcknowledgedMessageId,
    /// Of an acknowledgement: the SequenceNumber of the message acknowledged.
    AcknowledgedMessageSequenceNumber,
    /// Of an acknowledgement: the MessageType of the message acknowledged.
    AcknowledgedMessageType,
    /// Of an acknowledgement: whether the message acknowledged is a stream message.
    IsSequentialMessage,
    /// Of an opening: who opens the channel.
    ClientId,
    /// Of an opening and of a handshake response: the version of the plugin.
    ClientVersion,
    /// Of an opening: the version of these bodies.
    MessageSchemaVersion,
    /// Of an opening: the id of the request.
    RequestId,
    /// Of an opening: the token of the session.
    TokenValue,
    /// Of the answer to an opening: whether the channel is open.
    Accepted,
    /// Of the answer to an opening: whether the session has ended.
    Ended,
    /// Of the answer to an opening: the token for the next opening.
    ResumeToken,
    /// Of a handshake request: the version of the agent.
    AgentVersion,
    /// Of a handshake request: the list of its actions.
    RequestedClientActions,
    /// Of an action, requested or processed: its name.
    ActionType,
    /// Of a requested action: its object of parameters.
    ActionParameters,
    /// Of the parameters: the type of the session.
    SessionType,
    /// Of the parameters: the object of the session's properties.
    Properties,
    /// Of the properties: the port on the plugin's side.
    LocalPortNumber,
    /// Of the properties: the port on the agent's side.
    PortNumber,
    /// Of the properties: the type of port forwarding.
    Type_,
    /// Of a handshake response: the list of its errors.
    Errors,
    /// Of a handshake response: the list of the processed actions.
    ProcessedClientActions,
    /// Of a processed action: its result.
    ActionResult,
    /// Of a processed action: 1 (Success), 2 (Failed) or 3 (Unsupported).
    ActionStatus,
    /// Of a processed action: its error.
    Error,
    /// Of the end of a handshake: a text for the user.
    CustomerMessage,
    /// Of the end of a handshake: how long it took, in nanoseconds.
    HandshakeTimeToComplete,
    /// Of a closing: when it was written.
    CreatedDate,
    /// Of a closing: where it goes.
    DestinationId,
    /// Of a closing: its id.
    MessageId,
    /// Of a closing: its MessageType.
    MessageType,
    /// Of a closing: a text for the user.
    Output,
    /// Of a closing: the version of the body.
    SchemaVersion,
    /// Of a closing: the session that ended.
    SessionId,
    /// Of a size: the columns of the terminal.
    Cols,
    /// Of a size: the rows of the terminal.
    Rows,
}

impl Member {
    ghost use Rattle.json_members.specs.Member.{name_of};

    /// The name as it stands in a body.
    pub fn name(self) -> &'static str
        ensures { result.now ≡ name_of self }
    {
        match self {
            Member::AcknowledgedMessageId => "AcknowledgedMessageId",
            Member::AcknowledgedMessageSequenceNumber => "AcknowledgedMessageSequenceNumber",
            Member::AcknowledgedMessageType => "AcknowledgedMessageType",
            Member::IsSequentialMessage => "IsSequentialMessage",
            Member::ClientId => "ClientId",
            Member::ClientVersion => "ClientVersion",
            Member::MessageSchemaVersion => "MessageSchemaVersion",
            Member::RequestId => "RequestId",
            Member::TokenValue => "TokenValue",
            Member::Accepted => "Accepted",
            Member::Ended => "Ended",
            Member::ResumeToken => "ResumeToken",
            Member::AgentVersion => "AgentVersion",
            Member::RequestedClientActions => "RequestedClientActions",
            Member::ActionType => "ActionType",
            Member::ActionParameters => "ActionParameters",
            Member::SessionType => "SessionType",
            Member::Properties => "Properties",
            Member::LocalPortNumber => "localPortNumber",
            Member::PortNumber => "portNumber",
            Member::Type_ => "type",
            Member::Errors => "Errors",
            Member::ProcessedClientActions => "ProcessedClientActions",
            Member::ActionResult => "ActionResult",
            Member::ActionStatus => "ActionStatus",
            Member::Error => "Error",
            Member::CustomerMessage => "CustomerMessage",
            Member::HandshakeTimeToComplete => "HandshakeTimeToComplete",
            Member::CreatedDate => "CreatedDate",
            Member::DestinationId => "DestinationId",
            Member::MessageId => "MessageId",
            Member::MessageType => "MessageType",
            Member::Output => "Output",
            Member::SchemaVersion => "SchemaVersion",
            Member::SessionId => "SessionId",
            Member::Cols => "cols",
            Member::Rows => "rows",
        }
    }
}
