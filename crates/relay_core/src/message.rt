//! The relay's own messages.

ghost use Rattle.std.specs.Prelude.{◌≡◌, ◌≤◌, IfOk, length, decimal};
ghost use Rattle.chan_values.specs.Limits.{max_payload};
ghost use Rattle.agent_message.specs.Layout.{canonical};
ghost use Rattle.json_bodies.specs.ChannelClosed.{closed_bytes};
ghost use Rattle.uuid.specs.Text.{hyphenated_text, lower};
ghost use Rattle.relay_core.specs.Messages.{closing, closing_body, own_message, pause, start};

use agent_message::{Head, Name, encode_parts};
use chan_values::{Bytes, NoMemory, Text};
use itoa::Buffer;
use json_bodies::ChannelClosed;
use json_bodies::laws::closings_are_short;
use session_register::SessionName;
use std::alloc::Global;
use uuid::Uuid;

/// What the own messages of one step have in common.
#[derive(Clone, Copy)]
pub struct Stamp {
    pub(crate) alloc: Global,
    /// MessageId.
    pub(crate) id: [u8; 16],
    /// The moment of the step, in milliseconds since 1970-01-01 UTC. CreatedDate is this, at least 1.
    pub(crate) moment: u64,
}

impl Stamp {
    /// A pause.
    pub(crate) fn pause(&self) -> Result<Bytes, NoMemory>
        ensures { IfOk result (λ bytes. bytes ≡ pause self.now.id self.now.moment) }
    {
        self.message(Name::pause_publication(), &[])
    }

    /// A start.
    pub(crate) fn start(&self) -> Result<Bytes, NoMemory>
        ensures { IfOk result (λ bytes. bytes ≡ start self.now.id self.now.moment) }
    {
        self.message(Name::start_publication(), &[])
    }

    /// A closing of the session.
    pub(crate) fn closing(&self, session: &SessionName) -> Result<Bytes, NoMemory>
        ensures { IfOk result (λ bytes. bytes ≡ closing session.now self.now.id self.now.moment) }
    {
        let body = self.closing_body(session)?;
        let payload = body.write(self.alloc)?;
        closings_are_short();
        self.message(Name::channel_closed(), payload.as_slice())
    }

    // A message without number, flags and payload type.
    fn message(&self, name: Name, payload: &[u8]) -> Result<Bytes, NoMemory>
        requires { length payload.now ≤ max_payload }
        ensures { IfOk result (λ bytes.
            bytes ≡ canonical (own_message name self.now.id self.now.moment payload.now)) }
    {
        let head = Head {
            name,
            schema: 1,
            date: self.moment.max(1),
            seq: 0,
            flags: 0,
            id: self.id,
            ptype: 0,
        };
        Ok(Bytes::new(encode_parts(self.alloc, &head, payload)?))
    }

    // What a closing says.
    fn closing_body(&self, session: &SessionName) -> Result<ChannelClosed, NoMemory>
        ensures body { IfOk result (λ body.
            body ≡ closing_body session.now self.now.id self.now.moment) }
        ensures short { IfOk result (λ body. closed_bytes body ≤ 134) }
    {
        Ok(ChannelClosed {
            created: decimal_text(self.alloc, self.moment.max(1))?,
            destination: Text::new(String::new(self.alloc)),
            message_id: id_text(self.alloc, self.id)?,
            kind: Text::new(String::from_str(self.alloc, "channel_closed")?),
            output: Text::new(String::new(self.alloc)),
            schema: 1,
            session: Text::new(String::from_str(self.alloc, session.as_str())?),
        })
    }
}

fn decimal_text(alloc: Global, number: u64) -> Result<Text, NoMemory>
    ensures text { IfOk result (λ text. text ≡ decimal number) }
    ensures short { IfOk result (λ text. length text ≤ 20) }
{
    let mut buffer = Buffer::new();
    Ok(Text::new(String::from_str(alloc, buffer.format(number))?))
}

fn id_text(alloc: Global, id: [u8; 16]) -> Result<Text, NoMemory>
    ensures text { IfOk result (λ text. text ≡ hyphenated_text lower id) }
    ensures short { IfOk result (λ text. length text ≡ 36) }
{
    let id = Uuid::from_bytes(id).hyphenated();
    let mut buffer = Uuid::encode_buffer();
    Ok(Text::new(String::from_str(alloc, id.encode_lower(&mut buffer))?))
}
