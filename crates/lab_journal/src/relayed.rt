//! The relay's messages as a line of a script brings them to an end.

ghost use Rattle.std.specs.Prelude.{◌≡◌, ◌≤◌, IfOk, decimal, length};
ghost use Rattle.chan_values.specs.Limits.{max_payload};
ghost use Rattle.agent_message.specs.Layout.{canonical};
ghost use Rattle.json_bodies.specs.ChannelClosed.{closed_bytes};
ghost use Rattle.lab_relay.specs.Scene.{lab};
ghost use Rattle.lab_run.specs.Steps.{id_of};
ghost use Rattle.relay_core.specs.Messages.{closing, closing_body, own_message, pause, start};
ghost use Rattle.uuid.specs.Text.{hyphenated_text, lower};

use agent_message::{Head, Name, encode_parts};
use chan_values::{NoMemory, Text};
use itoa::Buffer;
use json_bodies::ChannelClosed;
use json_bodies::laws::closings_are_short;
use std::alloc::Global;
use uuid::Uuid;

/// The session of a script.
const SESSION: &str = "lab";

/// What the relay's messages of a line have in common.
#[derive(Clone, Copy)]
pub struct Stamp {
    pub alloc: Global,
    /// MessageId.
    pub id: [u8; 16],
    /// The moment in milliseconds. CreatedDate is this, at least 1.
    pub moment: u64,
}

impl Stamp {
    /// A pause.
    pub fn pause(&self) -> Result<Vec<u8>, NoMemory>
        ensures { IfOk result (λ bytes. bytes.items ≡ pause self.now.id self.now.moment) }
    {
        self.message(Name::pause_publication(), &[])
    }

    /// A start.
    pub fn start(&self) -> Result<Vec<u8>, NoMemory>
        ensures { IfOk result (λ bytes. bytes.items ≡ start self.now.id self.now.moment) }
    {
        self.message(Name::start_publication(), &[])
    }

    /// A closing.
    pub fn closing(&self) -> Result<Vec<u8>, NoMemory>
        ensures { IfOk result (λ bytes. bytes.items ≡ closing lab self.now.id self.now.moment) }
    {
        let body = self.closing_body()?;
        let payload = body.write(self.alloc)?;
        closings_are_short();
        self.message(Name::channel_closed(), payload.as_slice())
    }

    /// A message without number, flags and payload type.
    fn message(&self, name: Name, payload: &[u8]) -> Result<Vec<u8>, NoMemory>
        requires { length payload.now ≤ max_payload }
        ensures { IfOk result (λ bytes. bytes.items
            ≡ canonical (own_message name self.now.id self.now.moment payload.now)) }
    {
        let head = Head {
            name,
            schema: 1,
            date: self.moment.max(1),
            seq: 0,
            flags: 0,
            id: self.id,
            ptype: 0,
        };
        encode_parts(self.alloc, &head, payload)
    }

    /// What a closing says.
    fn closing_body(&self) -> Result<ChannelClosed, NoMemory>
        ensures body { IfOk result (λ body.
            body ≡ closing_body lab self.now.id self.now.moment) }
        ensures short { IfOk result (λ body. closed_bytes body ≤ 134) }
    {
        Ok(ChannelClosed {
            created: decimal_text(self.alloc, self.moment.max(1))?,
            destination: Text::new(String::new(self.alloc)),
            message_id: id_text(self.alloc, self.id)?,
            kind: Text::new(String::from_str(self.alloc, "channel_closed")?),
            output: Text::new(String::new(self.alloc)),
            schema: 1,
            session: Text::new(String::from_str(self.alloc, SESSION)?),
        })
    }
}

fn decimal_text(alloc: Global, number: u64) -> Result<Text, NoMemory>
    ensures text { IfOk result (λ text. text ≡ decimal number) }
    ensures short { IfOk result (λ text. length text ≤ 20) }
{
    let mut buffer = Buffer::new();
    Ok(Text::new(String::from_str(alloc, buffer.format(number))?))
}

fn id_text(alloc: Global, id: [u8; 16]) -> Result<Text, NoMemory>
    ensures text { IfOk result (λ text. text ≡ hyphenated_text lower id) }
    ensures short { IfOk result (λ text. length text ≡ 36) }
{
    let id = Uuid::from_bytes(id).hyphenated();
    let mut buffer = Uuid::encode_buffer();
    Ok(Text::new(String::from_str(alloc, id.encode_lower(&mut buffer))?))
}

/// The id of what a line brings.
pub fn line_id(line: u64) -> [u8; 16]
    ensures { result ≡ id_of line }
{
    let mut id = [0u8; 16];
    id[8..].copy_from_slice(&line.to_be_bytes());
    id
}
