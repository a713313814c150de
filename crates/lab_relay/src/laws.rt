//! The laws of scripts: what holds of the world and the report of every script.
//!
//! A law is the contract of a function with an empty body, by the definitions of `specs/`.

ghost use Rattle.lab_relay.specs.Laws.{EveryInboxIsTrue, EveryScriptIsFaithful, RelayLaws};

/// The world of every script is legal and honest, each end takes each number once in it, and what an
/// end released is a prefix of what the other end's user put in, and all of it where that user put in a
/// last item and the end told that it was released. It tells so at most once, hears nothing past the end,
/// and after a last item nothing is put in.
pub fn every_script_is_faithful()
    ensures { EveryScriptIsFaithful }
{}

/// After every script of the grammar each inbox has exactly what the relay sends to connections of its end
/// at all that came to it, in order; an end heard nothing but messages of its inbox, each as its bytes say.
pub fn every_inbox_is_true()
    ensures { EveryInboxIsTrue }
{}

/// All laws together.
pub fn relay_laws()
    ensures { RelayLaws }
{}
