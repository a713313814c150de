//! A child that was started: its input, its end, and how many of its outputs are still fed.

ghost use Rattle.std.specs.Prelude.{◌≡◌, ◌≤◌, ◌-◌, ◌++◌, ◌==◌, ◌&&◌, false, List, [], ◌∷◌, OnErr};
ghost use Rattle.chan_io.specs.Faults.{Rises};
ghost use Rattle.chan_ports.specs.Waits.{Waits};
ghost use Rattle.session_run.specs.declared.parcel.Parcel.{Parcel};
ghost use Rattle.shell_session.specs.Children.{Feeds, Finishes, SameEnd, SameInput, TookInput, new_child};
ghost use Rattle.shell_session.specs.Parcels.{is_over, overs};

use crate::code::OUTPUT;
use crate::flag::is_terminate;
use chan_io::{Failed, Sink};
use chan_ports::Waited;
use session_run::Parcel;
use std::marker::Model;

/// A child that was started.
#[derive(Drop)]
pub(crate) struct RunningChild<A: Sink, E: Waited> {
    pub(crate) stdin: A,
    // Whether no more is written to its input: it was finished, or a call of it failed.
    over: bool,
    end: E,
    feeding: u8,
}

impl<A: Sink, E: Waited> Model for RunningChild<A, E> {
    ghost use Rattle.shell_session.specs.Children.{ChildState};

    ghost Value = { ChildState };

    ghost view = { λ c. record {
      stdin = A.output c.stdin;
      stdin_faults = A.faults c.stdin;
      over = c.over;
      statuses = E.statuses c.end;
      end_faults = E.faults c.end;
      feeding = c.feeding;
    } };
}

impl<A: Sink, E: Waited> RunningChild<A, E> {
    /// A child whose two outputs are fed.
    pub(crate) fn new(stdin: A, end: E) -> RunningChild<A, E>
        ensures { result ≡ new_child (A.output stdin) (A.faults stdin) (E.statuses end) (E.faults end) }
    {
        RunningChild {
            stdin,
            over: false,
            end,
            feeding: 2,
        }
    }

    /// Gives its input what a parcel has for it.
    pub(crate) fn hear(&mut self, parcel: &Parcel)
        ensures input { (before : List Parcel) → TookInput before self.old
            → TookInput (before ++ parcel.now ∷ []) self.new }
        ensures end { SameEnd self.old self.new }
        ensures feeding { self.new.feeding ≡ self.old.feeding }
    {
        match parcel {
            Parcel::Arrived(item) => {
                if is_terminate(item) {
                    self.finish();
                } else if item.ptype == OUTPUT {
                    self.write(item.payload.as_slice());
                }
            }
            Parcel::Finished => self.finish(),
            Parcel::Over => {}
        }
    }

    /// Writes bytes to its input. After a call that failed nothing more is written there.
    fn write(&mut self, bytes: &[u8])
        ensures feeds { Feeds bytes.now self.old self.new }
        ensures end { SameEnd self.old self.new }
        ensures feeding { self.new.feeding ≡ self.old.feeding }
    {
        if !self.over {
            self.over = self.stdin.write(bytes).is_err();
        }
    }

    /// Finishes its input. A finish that failed is not tried again.
    fn finish(&mut self)
        ensures finishes { Finishes self.old self.new }
        ensures end { SameEnd self.old self.new }
        ensures feeding { self.new.feeding ≡ self.old.feeding }
    {
        if !self.over {
            self.over = true;
            let _ = self.stdin.finish();
        }
    }

    /// Counts the outputs that are still fed, by one parcel more. Answers whether it told of the last.
    pub(crate) fn is_last_over(&mut self, parcel: &Parcel) -> bool
        ensures last { result ≡ (is_over parcel.now && (self.old.feeding == 1)) }
        ensures left { self.new ≡ record self.old {
          feeding = self.old.feeding - overs (parcel.now ∷ []);
        } }
    {
        if !matches!(parcel, Parcel::Over) {
            return false;
        }
        let last = self.feeding == 1;
        self.feeding = self.feeding.saturating_sub(1);
        last
    }

    /// Waits for its end.
    pub(crate) fn wait(&mut self) -> Result<i32, Failed>
        ensures waits { Waits result self.old.statuses self.new.statuses }
        ensures failed { OnErr result (Rises self.old.end_faults self.new.end_faults) }
        ensures counted { self.old.end_faults ≤ self.new.end_faults }
        ensures input { SameInput self.old self.new }
        ensures feeding { self.new.feeding ≡ self.old.feeding }
    {
        self.end.wait()
    }
}
