//! The type of a data channel message, MessageType, as the text that stands in its field.

ghost use Rattle.std.specs.Prelude.{◌≡◌, ◌↔◌, ℕ, ◌≤◌, length, codes, IsTrue, IsSome, IfSome, IfOk, IfErr, OnOk};
ghost use Rattle.std.specs.List.{list_all, prefix_len};
ghost use Rattle.std.specs.Str.{bytes_eq};
ghost use Rattle.std.specs.Cmp.{partial_equiv_from_equiv};
ghost use Rattle.std.specs.Cmp.Lexicographic.{nat_list_eq_equiv};
ghost use Rattle.agent_message.specs.Names.{is_name_byte, IsName, IsPublication, IsWrongAt, is_filler_byte, name_of, padded};

use std::marker::Model;

/// The length of the field, and so of the longest name.
pub const MAX_NAME: usize = 32;

/// MessageType: 1 to 32 ASCII letters, digits or underscores.
#[derive(Clone, Copy, Debug)]
pub struct Name {
    // The field as it is written: the name, and spaces behind it.
    field: [u8; MAX_NAME],
    len: usize,
}

impl Model for Name {
    ghost use Rattle.std.specs.Prelude.{◌≡◌, List, ℕ, length, take, refl};
    ghost use Rattle.agent_message.specs.Names.{IsName, padded};

    ghost Value = { List ℕ };

    ghost view = { λ n. take n.len n.field };

    ghost invariant = { λ n. IsName (take n.len n.field)
        × (length (take n.len n.field) ≡ n.len)
        × (padded (take n.len n.field) ≡ n.field) };

    ghost inverse = { λ v. record { field = padded v; len = length v } };

    ghost inverse_ok = { λ a h. Prim.rw (h.2, h.1) refl };
}

impl Name {
    /// The text as a name, where it is one.
    pub fn new(text: &[u8]) -> Option<Name>
        ensures valid { IsSome result ↔ IsName text.now }
        ensures value { IfSome result (λ name. name ≡ text.now) }
    {
        if is_name(text) {
            Some(Name::of(text))
        } else {
            None
        }
    }

    /// The bytes of the name.
    pub fn as_bytes(&self) -> &[u8]
        ensures value { result.now ≡ self.now }
        ensures valid { IsName self.now }
    {
        &self.field[..self.len]
    }

    /// The bytes of the field: the name, filled up with spaces.
    pub(crate) fn as_field(&self) -> &[u8]
        ensures value { result.now ≡ padded self.now }
        ensures valid { IsName self.now }
    {
        &self.field
    }

    /// Whether the message is a pause or a start of the stream, whose date and digest do not count.
    pub fn is_publication(&self) -> bool
        ensures { IsTrue result ↔ IsPublication self.now }
    {
        *self == Name::start_publication() || *self == Name::pause_publication()
    }

    /// A stream message of the plugin.
    pub fn input_stream_data() -> Name
        ensures { result ≡ codes "input_stream_data" }
    {
        Name {
            field: *b"input_stream_data               ",
            len: 17,
        }
    }

    /// A stream message of the agent.
    pub fn output_stream_data() -> Name
        ensures { result ≡ codes "output_stream_data" }
    {
        Name {
            field: *b"output_stream_data              ",
            len: 18,
        }
    }

    /// An acknowledgement of a stream message.
    pub fn acknowledge() -> Name
        ensures { result ≡ codes "acknowledge" }
    {
        Name {
            field: *b"acknowledge                     ",
            len: 11,
        }
    }

    /// The end that hears it sends no stream message until a start.
    pub fn pause_publication() -> Name
        ensures { result ≡ codes "pause_publication" }
    {
        Name {
            field: *b"pause_publication               ",
            len: 17,
        }
    }

    /// The end that hears it sends stream messages again.
    pub fn start_publication() -> Name
        ensures { result ≡ codes "start_publication" }
    {
        Name {
            field: *b"start_publication               ",
            len: 17,
        }
    }

    /// The channel is closed.
    pub fn channel_closed() -> Name
        ensures { result ≡ codes "channel_closed" }
    {
        Name {
            field: *b"channel_closed                  ",
            len: 14,
        }
    }

    /// The name at the front of a field, or the first place that has neither name nor filler.
    pub(crate) fn read(field: &[u8]) -> Result<Name, usize>
        requires { length field.now ≤ 32 }
        ensures read { IfOk result (λ name. name ≡ name_of field.now) }
        ensures whole { OnOk result ((place : ℕ) → ¬ IsWrongAt field.now place) }
        ensures wrong { IfErr result (IsWrongAt field.now) }
    {
        let (name, behind) = field.split_at(name_len(field));
        let filler = filler_len(behind);
        if name.is_empty() {
            Err(0)
        } else if filler < behind.len() {
            Err(name.len() + filler)
        } else {
            Ok(Name::of(name))
        }
    }

    /// The name with these bytes.
    pub(crate) fn of(text: &[u8]) -> Name
        requires { IsName text.now }
        ensures { result ≡ text.now }
    {
        let mut field = [b' '; MAX_NAME];
        let (front, _) = field.split_at_mut(text.len());
        front.copy_from_slice(text);
        Name {
            field,
            len: text.len(),
        }
    }
}

impl PartialEq for Name {
    ghost eq = { bytes_eq };

    ghost laws = { partial_equiv_from_equiv nat_list_eq_equiv };

    fn eq(&self, other: &Name) -> bool {
        self.as_bytes() == other.as_bytes()
    }
}

impl Eq for Name {
    ghost laws = { nat_list_eq_equiv };
}

fn is_name(text: &[u8]) -> bool
    ensures { IsTrue result ↔ IsName text.now }
{
    (1..=MAX_NAME).contains(&text.len()) && has_name_bytes_only(text)
}

fn has_name_bytes_only(text: &[u8]) -> bool
    ensures { result ≡ list_all is_name_byte text.now }
{
    text.iter().all(|byte| is_name_byte(*byte))
}

/// Whether a name may have the byte.
pub(crate) fn is_name_byte(byte: u8) -> bool
    ensures { result ≡ is_name_byte byte }
{
    byte.is_ascii_alphanumeric() || byte == b'_'
}

/// How many bytes at the front a name may have.
fn name_len(field: &[u8]) -> usize
    ensures { result ≡ prefix_len is_name_byte field.now }
{
    field.iter().take_while(|byte| is_name_byte(**byte)).count()
}

/// How many bytes at the front may fill up a name.
fn filler_len(field: &[u8]) -> usize
    ensures { result ≡ prefix_len is_filler_byte field.now }
{
    field
        .iter()
        .take_while(|byte| is_filler_byte(**byte))
        .count()
}

fn is_filler_byte(byte: u8) -> bool
    ensures { result ≡ is_filler_byte byte }
{
    byte == b' ' || byte == 0
}
