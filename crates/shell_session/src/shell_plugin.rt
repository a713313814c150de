//! The plugin's end of a shell session: the terminal of a user.

ghost use Rattle.std.specs.Prelude.{◌≡◌, [], ◌∷◌, All, IfErr, IfOk, IfSome, None, true, false};
ghost use Rattle.session_feeds.specs.Marks.{IsNew};
ghost use Rattle.session_feeds.specs.Sessions.{AddsMarks, AllSmall, Gives, MayCall, feeders_of, puts_in, refusal_in};
ghost use Rattle.shell_session.specs.PluginSteps.{Flags, Shows, Takes};
ghost use Rattle.shell_session.specs.Plugins.{IsPluginRaised, PluginStandsFor, new_shell_plugin, plugin_out};
ghost use Rattle.shell_session.specs.Readings.{Reading, told_by};
ghost use Rattle.shell_session.specs.Streams.{StreamsTold};
ghost use Rattle.shell_session.specs.Verdicts.{EndsByFlag};

use crate::asking::{nothing, put, refusal};
use crate::code::{OUTPUT, STD_ERR};
use crate::exit::exit_of;
use crate::flag::terminate_item;
use crate::stream_feeder::{StreamFeeder, keep};
use crate::streams::Streams;
use chan_io::{Sink, Source};
use chan_ports::Local;
use chan_values::Item;
use session_feeds::{Session, SessionFault, Verdict};
use session_run::Parcel;
use std::alloc::Global;
use std::marker::Model;
use std::snapshot::Snapshot;

/// The plugin's end of a shell session, once the handshake is done.
#[derive(Drop)]
pub struct ShellPlugin<I: Source, O: Sink, X: Sink> {
    alloc: Global,
    // What feeds the user's input, while it is not out.
    input: Option<StreamFeeder<I>>,
    pub(crate) output: O,
    pub(crate) errors: X,
    exit: Option<i32>,
    flagged: bool,
    begun: bool,
    refused: Option<SessionFault>,
    // The user's input as it was at first, for contracts.
    first: Snapshot<I>,
}

impl<I: Source, O: Sink, X: Sink> Model for ShellPlugin<I, O, X> {
    ghost use Rattle.std.specs.Prelude.{◌≡◌, IfSome, IsSome, None, false};
    ghost use Rattle.shell_session.specs.Plugins.{ShellPluginState};
    ghost use Rattle.shell_session.specs.Readings.{new_reading};

    ghost Value = { ShellPluginState };

    ghost view = { λ s. record {
      begun = s.begun;
      refused = s.refused;
      flagged = s.flagged;
      first = I.input s.first.value;
      input = s.input;
      output = O.output s.output;
      output_faults = O.faults s.output;
      errors = X.output s.errors;
      errors_faults = X.faults s.errors;
      exit = s.exit;
    } };

    ghost invariant = { λ s. s.begun ≡ false
        → (s.refused ≡ None) × IsSome s.input
        × IfSome s.input (λ r. r ≡ new_reading 1 (I.input s.first.value) r.faults) };
}

impl<I: Source, O: Sink, X: Sink> ShellPlugin<I, O, X> {
    /// An end over these streams of the user.
    pub fn new(alloc: Global, local: Local<I, O, X>) -> ShellPlugin<I, O, X>
        ensures new { result ≡ new_shell_plugin (record {
          input = I.input local.input;
          output = O.output local.output;
          output_faults = O.faults local.output;
          errors = X.output local.errors;
          errors_faults = X.faults local.errors;
        }) (I.faults local.input) }
        ensures stands { PluginStandsFor result (record {
          contents = record {
            input = I.input local.input;
            output = O.output local.output;
            output_faults = O.faults local.output;
            errors = X.output local.errors;
            errors_faults = X.faults local.errors;
          };
          taken = [];
          given = [];
          back = [];
        }) }
    {
        let first = Snapshot::of(&local.input);
        ShellPlugin {
            alloc,
            input: Some(StreamFeeder::new(alloc, local.input, OUTPUT)),
            output: local.output,
            errors: local.errors,
            exit: None,
            flagged: false,
            begun: false,
            refused: None,
            first,
        }
    }

    /// The status of the program, once it came.
    pub fn exit(&self) -> Option<i32>
        ensures { result ≡ self.now.exit }
    {
        self.exit
    }

    /// The streams of the user. No feeder is out.
    pub fn into_parts(self) -> Local<I, O, X>
        requires { plugin_out self ≡ [] }
        ensures input { IfSome self.input (λ r. I.input result.input ≡ r.now) }
        ensures input_faults { IfSome self.input (λ r. I.faults result.input ≡ r.faults) }
        ensures output { O.output result.output ≡ self.output }
        ensures output_faults { O.faults result.output ≡ self.output_faults }
        ensures errors { X.output result.errors ≡ self.errors }
        ensures errors_faults { X.faults result.errors ≡ self.errors_faults }
    {
        let ShellPlugin {
            alloc: _,
            input,
            output,
            errors,
            exit: _,
            flagged: _,
            begun: _,
            refused: _,
            first: _,
        } = self;
        let Some(feeder) = input else { unreachable!() };
        let input = feeder.into_source();
        Local {
            input,
            output,
            errors,
        }
    }
}

impl<I: Source + Drop, O: Sink, X: Sink> ShellPlugin<I, O, X> {
    /// What it answers to a parcel, before it notes a refusal.
    fn answer(&mut self, parcel: Parcel) -> Result<Verdict<StreamFeeder<I>>, SessionFault>
        requires { MayCall self.old.begun self.old.refused }
        ensures { Takes parcel self.old result self.new }
    {
        match parcel {
            Parcel::Arrived(item) => {
                if !self.show(&item) {
                    return Err(SessionFault::Write);
                }
                Ok(nothing(self.alloc))
            }
            Parcel::Finished => Ok(nothing(self.alloc)),
            Parcel::Over => self.flag(),
        }
    }

    /// Shows the user what arrived. Answers false where a write failed.
    fn show(&mut self, item: &Item) -> bool
        ensures { Shows item.now self.old result self.new }
    {
        if item.ptype == OUTPUT {
            return self.output.write(item.payload.as_slice()).is_ok();
        }
        if item.ptype == STD_ERR {
            return self.errors.write(item.payload.as_slice()).is_ok();
        }
        if let Some(status) = exit_of(item) {
            self.exit = Some(status);
        }
        true
    }

    /// Ends the direction by Flag 2, once.
    fn flag(&mut self) -> Result<Verdict<StreamFeeder<I>>, SessionFault>
        ensures { Flags self.old result self.new }
    {
        if self.flagged {
            return Ok(nothing(self.alloc));
        }
        let Ok(item) = terminate_item(self.alloc) else {
            return Err(SessionFault::NoMemory);
        };
        let Ok(verdict) = put(self.alloc, item, true, false) else {
            return Err(SessionFault::NoMemory);
        };
        self.flagged = true;
        Ok(verdict)
    }
}

impl<I: Source + Send + Drop, O: Sink + Send + Drop, X: Sink + Send + Drop> Session
    for ShellPlugin<I, O, X> {
    type F = StreamFeeder<I>;

    type Contents = Streams;

    ghost stands = { PluginStandsFor };

    ghost out = { plugin_out };

    ghost begun = { λ s. s.begun };

    ghost refused = { λ s. s.refused };

    ghost agreed = { λ s. true };

    fn begin(&mut self, _now: u64) -> Result<Verdict<Self::F>, SessionFault> {
        self.begun = true;
        let mut verdict = nothing(self.alloc);
        if verdict.feeders.reserve(1).is_err() {
            self.refused = Some(SessionFault::NoMemory);
            return Err(SessionFault::NoMemory);
        }
        let Some(feeder) = self.input.take() else {
            unreachable!()
        };
        verdict.feeders.push_reserved(feeder);
        Ok(verdict)
    }

    fn take(&mut self, _now: u64, parcel: Parcel) -> Result<Verdict<Self::F>, SessionFault>
        requires { MayCall self.old.begun self.old.refused }
        ensures begun { self.new.begun ≡ true }
        ensures stands { Gives (PluginStandsFor self.old) (parcel ∷ []) (puts_in result)
            (PluginStandsFor self.new) }
        ensures out { AddsMarks told_by (plugin_out self.old) (feeders_of result)
            (plugin_out self.new) }
        ensures refused { self.new.refused ≡ refusal_in result }
        ensures fits { AllSmall (puts_in result) }
        ensures fresh { All (λ f. IsNew (told_by f)) (feeders_of result) }
        ensures ends { IfOk result EndsByFlag }
        ensures fault { IfErr result (λ fault. IsPluginRaised fault self.old self.new) }
    {
        let answer = self.answer(parcel);
        self.refused = refusal(&answer);
        answer
    }

    fn ready(&mut self) -> Result<(bool, Vec<Self::F>), SessionFault> {
        Ok((true, Vec::new(self.alloc)))
    }

    fn back(&mut self, feeder: Self::F) {
        keep(&mut self.input, feeder);
    }

    fn agreed(&self) -> bool {
        true
    }
}
