//! The laws of scripts with streams: what holds of what happened in every script.
//!
//! A law is the contract of a function with an empty body, by the definitions of `specs/`.

ghost use Rattle.lab_streams.specs.Laws.{EveryStreamEmissionIsSendable, EveryStreamScriptIsFaithful, EveryStreamSettleExchangesAll, StreamLaws};

/// In every script each end is as faithful as in a plain one, each Mux is fed what the other gave out
/// in order, and so each stream: what one side delivered is a prefix of what the other wrote, and
/// nothing comes after its end, which is told once all of it was delivered. After a last item nothing
/// is put in at an end.
pub fn every_script_is_faithful()
    ensures { EveryStreamScriptIsFaithful }
{}

/// After every script a settle is an exchange without a loss, with the steps of the lines that it
/// stands for; where neither end is closed then, each has released all that the other put in.
pub fn every_settle_exchanges_all()
    ensures { EveryStreamSettleExchangesAll }
{}

/// All that the ends emit in a script of commands in range has an encoding.
pub fn every_emission_is_sendable()
    ensures { EveryStreamEmissionIsSendable }
{}

/// All of these together.
pub fn stream_laws()
    ensures { StreamLaws }
{}
