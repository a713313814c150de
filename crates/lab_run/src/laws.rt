//! The laws of scripts: what holds of the world and the report of every script.
//!
//! A law is the contract of a function with an empty body, by the definitions of `specs/`.

ghost use Rattle.lab_run.specs.Laws.{EveryEmissionIsSendable, EveryScriptIsFaithful, EverySettleExchangesAll, HurtTellsIncoming, ScriptLaws};

/// The world of every script is legal and honest, each end takes each number once in it, and what an
/// end released is a prefix of what the other end's user put in: all of it where that user put in a
/// last item and the end told, once, that it was released. After a last item nothing is put in.
pub fn every_script_is_faithful()
    ensures { EveryScriptIsFaithful }
{}

/// After every script a settle is an exchange without a loss; where neither end is closed then,
/// each has released all that the other put in.
pub fn every_settle_exchanges_all()
    ensures { EverySettleExchangesAll }
{}

/// All that the ends emit in the world of a script has an encoding.
pub fn every_emission_is_sendable()
    ensures { EveryEmissionIsSendable }
{}

/// A hurt reports what the side answers to the damaged bytes.
pub fn hurt_tells_incoming()
    ensures { HurtTellsIncoming }
{}

/// All of these together.
pub fn script_laws()
    ensures { ScriptLaws }
{}
