//! What all workers of a running relay share.

ghost use Rattle.std.specs.Prelude.{◌≡◌, length};

use relay_run::{Drops, Mark};
use relay_switch::Switch;
use session_register::SessionName;
use std::alloc::Global;
use std::thread::Scope;
use turn_lock::{Turn, TurnLock};

/// What all workers of a running relay share.
#[derive(Drop)]
pub struct RelayContext<'s, 'e, R, C, D: Turn> {
    /// The runtime.
    pub rt: &'s R,
    /// The scope of the threads.
    pub scope: &'s Scope<'s, &'e ()>,
    /// The memory for the replies and for what is kept of each connection.
    pub alloc: Global,
    /// The sessions.
    pub names: &'s [SessionName],
    /// The lock over the switch of each of them.
    pub switches: &'s [TurnLock<Switch>],
    /// The lock over the desk.
    pub desk: &'s TurnLock<D>,
    /// The clock.
    pub clock: &'s C,
    /// The mark at which all of them end.
    pub mark: &'s Mark,
    /// After which message a plugin's connection is dropped.
    pub drops: &'s Drops,
    ghost paired: { length names.now ≡ length switches.now },
}

impl<'s, 'e, R, C, D: Turn> RelayContext<'s, 'e, R, C, D> {
    /// The same for another worker.
    pub fn again(&self) -> RelayContext<'s, 'e, R, C, D>
        ensures desk { result.desk.now ≡ self.now.desk.now }
        ensures switches { result.switches.now ≡ self.now.switches.now }
        ensures names { result.names.now ≡ self.now.names.now }
    {
        RelayContext {
            rt: self.rt,
            scope: self.scope,
            alloc: self.alloc,
            names: self.names,
            switches: self.switches,
            desk: self.desk,
            clock: self.clock,
            mark: self.mark,
            drops: self.drops,
        }
    }
}
