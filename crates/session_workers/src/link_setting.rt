//! What a link reader is set to, and the openings that it makes.

ghost use Rattle.std.specs.Prelude.{◌≡◌, IfOk};
ghost use Rattle.session_workers.specs.Openings.{opening_of, opening_with, role_text, token_value, version_of};

use chan_values::{NoMemory, Side, Text};
use json_bodies::Opening;
use std::alloc::Global;

/// ClientVersion of the plugin.
const PLUGIN_VERSION: &str = "1.2.0.0";

/// What stays the same in all openings of a run.
#[derive(Debug, Drop)]
pub struct LinkSetting {
    /// The side of the end.
    pub side: Side,
    /// The window, in messages.
    pub window: u64,
    /// The address of the relay.
    pub address: Text,
    /// ClientId and RequestId: who opens.
    pub client: Text,
    /// The session.
    pub session: Text,
    /// The end that its tokens are for.
    pub role: Side,
}

impl LinkSetting {
    /// The text of the opening with the token of these digits.
    pub fn opening(&self, alloc: Global, token: &Text) -> Result<Vec<u8>, NoMemory>
        ensures { IfOk result (λ bytes. bytes.items ≡ opening_with self.now token.now) }
    {
        let opening = self.opening_of(alloc, token)?;
        opening.write(alloc)
    }

    /// The opening with the token of these digits.
    fn opening_of(&self, alloc: Global, token: &Text) -> Result<Opening, NoMemory>
        ensures { IfOk result (λ opening. opening ≡ opening_of self.now token.now) }
    {
        Ok(Opening {
            client_id: self.client.copy(alloc)?,
            client_version: version_of(alloc, self.side)?,
            request_id: self.client.copy(alloc)?,
            token: token_value(alloc, &self.session, self.role, token)?,
        })
    }
}

/// The version that a side tells.
fn version_of(alloc: Global, side: Side) -> Result<Option<Text>, NoMemory>
    ensures { IfOk result (λ version. version ≡ version_of side) }
{
    match side {
        Side::Plugin => Ok(Some(Text::new(String::from_str(alloc, PLUGIN_VERSION)?))),
        Side::Agent => Ok(None),
    }
}

/// The end in the text of a token, between its dots.
fn role_text(role: Side) -> &'static str
    ensures { result.now ≡ role_text role }
{
    match role {
        Side::Plugin => ".plugin.",
        Side::Agent => ".agent.",
    }
}

/// The text of a session, an end and the digits of a token.
fn token_value(alloc: Global, session: &Text, role: Side, token: &Text) -> Result<Text, NoMemory>
    ensures { IfOk result (λ text. text ≡ token_value session.now role token.now) }
{
    let mut text = String::from_str(alloc, session.as_str())?;
    text.push_str(role_text(role))?;
    text.push_str(token.as_str())?;
    Ok(Text::new(text))
}
