//! The calls of the register.

ghost use Rattle.std.specs.Prelude.{◌≡◌, ◌≤◌, IfOk, IsErrOf, OnErr, OnOk};
ghost use Rattle.chan_io.specs.Faults.{Rises};
ghost use Rattle.session_register.specs.Rows.{AsksEnded, Counts, Creates, Ends, Meets, Opens};

use crate::answer::{Closing, Created, Open};
use crate::keeper::Keeper;
use crate::name::SessionName;
use crate::opening::Opening;
use crate::row::{Chain, Row};
use crate::token::Token;
use chan_io::IoFault;
use chan_values::Side;
use std::alloc::Global;

/// The sessions that a keeper keeps.
#[derive(Drop)]
pub struct Register<K: Drop> {
    /// What keeps them.
    pub keeper: K,
}

impl<K: Keeper + Drop> Register<K> {
    /// The register of a keeper's rows.
    pub fn new(keeper: K) -> Register<K>
        ensures { result.keeper ≡ keeper }
    {
        Register { keeper }
    }

    /// The keeper.
    pub fn into_keeper(self) -> K
        ensures { result ≡ self.keeper }
    {
        self.keeper
    }

    /// Makes a session with the first tokens of both chains.
    pub fn create(
        &mut self,
        alloc: Global,
        session: &SessionName,
        plugin: u64,
        agent: u64,
    ) -> Result<Created, IoFault>
        ensures meets { IfOk result (λ answer. Meets (Creates session.now plugin agent answer)
            (K.rows self.old.keeper) (K.rows self.new.keeper)) }
        ensures same { OnErr result (K.rows self.new.keeper ≡ K.rows self.old.keeper) }
        ensures steady { OnOk result (K.faults self.new.keeper ≡ K.faults self.old.keeper) }
        ensures lacking { IsErrOf result IoFault.NoMemory
            → K.faults self.new.keeper ≡ K.faults self.old.keeper }
        ensures failed { IsErrOf result IoFault.Failed
            → Rises (K.faults self.old.keeper) (K.faults self.new.keeper) }
        ensures counted { K.faults self.old.keeper ≤ K.faults self.new.keeper }
    {
        if self.keeper.get(alloc, session)?.is_some() {
            return Ok(Created::Exists);
        }
        let plugin = Token::first(plugin);
        let agent = Token::first(agent);
        let row = Row {
            session: *session,
            ended: false,
            plugin: Chain::first(plugin),
            agent: Chain::first(agent),
        };
        self.keeper.put(alloc, row)?;
        Ok(Created::New(plugin, agent))
    }

    /// Opens a session for an end that shows a token.
    pub fn open(
        &mut self,
        alloc: Global,
        session: &SessionName,
        role: Side,
        token: Token,
        fresh: u64,
    ) -> Result<Open, IoFault>
        ensures meets { IfOk result (λ answer. Meets (Opens session.now role token fresh answer)
            (K.rows self.old.keeper) (K.rows self.new.keeper)) }
        ensures same { OnErr result (K.rows self.new.keeper ≡ K.rows self.old.keeper) }
        ensures steady { OnOk result (K.faults self.new.keeper ≡ K.faults self.old.keeper) }
        ensures lacking { IsErrOf result IoFault.NoMemory
            → K.faults self.new.keeper ≡ K.faults self.old.keeper }
        ensures failed { IsErrOf result IoFault.Failed
            → Rises (K.faults self.old.keeper) (K.faults self.new.keeper) }
        ensures counted { K.faults self.old.keeper ≤ K.faults self.new.keeper }
    {
        let Some(row) = self.keeper.get(alloc, session)? else {
            return Ok(Open::NoSession);
        };
        let Opening { answer, next } = Opening::of(row, role, token, fresh);
        match next {
            Some(next) => self.keeper.put(alloc, next)?,
            None => (),
        }
        Ok(answer)
    }

    /// Ends a session.
    pub fn end(&mut self, alloc: Global, session: &SessionName) -> Result<Closing, IoFault>
        ensures meets { IfOk result (λ answer. Meets (Ends session.now answer)
            (K.rows self.old.keeper) (K.rows self.new.keeper)) }
        ensures same { OnErr result (K.rows self.new.keeper ≡ K.rows self.old.keeper) }
        ensures steady { OnOk result (K.faults self.new.keeper ≡ K.faults self.old.keeper) }
        ensures lacking { IsErrOf result IoFault.NoMemory
            → K.faults self.new.keeper ≡ K.faults self.old.keeper }
        ensures failed { IsErrOf result IoFault.Failed
            → Rises (K.faults self.old.keeper) (K.faults self.new.keeper) }
        ensures counted { K.faults self.old.keeper ≤ K.faults self.new.keeper }
    {
        let Some(row) = self.keeper.get(alloc, session)? else {
            return Ok(Closing::NoSession);
        };
        self.keeper.put(alloc, Row { ended: true, ..row })?;
        Ok(Closing::Done)
    }

    /// Whether a session has ended, if there is one.
    pub fn ended(&mut self, alloc: Global, session: &SessionName) -> Result<Option<bool>, IoFault>
        ensures meets { IfOk result (λ answer. Meets (AsksEnded session.now answer)
            (K.rows self.old.keeper) (K.rows self.new.keeper)) }
        ensures same { K.rows self.new.keeper ≡ K.rows self.old.keeper }
        ensures steady { OnOk result (K.faults self.new.keeper ≡ K.faults self.old.keeper) }
        ensures lacking { IsErrOf result IoFault.NoMemory
            → K.faults self.new.keeper ≡ K.faults self.old.keeper }
        ensures failed { IsErrOf result IoFault.Failed
            → Rises (K.faults self.old.keeper) (K.faults self.new.keeper) }
        ensures counted { K.faults self.old.keeper ≤ K.faults self.new.keeper }
    {
        Ok(match self.keeper.get(alloc, session)? {
            Some(row) => Some(row.ended),
            None => None,
        })
    }

    /// How often the plugin and the agent of a session were let in, if there is such a session.
    pub fn counts(
        &mut self,
        alloc: Global,
        session: &SessionName,
    ) -> Result<Option<(u64, u64)>, IoFault>
        ensures meets { IfOk result (λ answer. Meets (Counts session.now answer)
            (K.rows self.old.keeper) (K.rows self.new.keeper)) }
        ensures same { K.rows self.new.keeper ≡ K.rows self.old.keeper }
        ensures steady { OnOk result (K.faults self.new.keeper ≡ K.faults self.old.keeper) }
        ensures lacking { IsErrOf result IoFault.NoMemory
            → K.faults self.new.keeper ≡ K.faults self.old.keeper }
        ensures failed { IsErrOf result IoFault.Failed
            → Rises (K.faults self.old.keeper) (K.faults self.new.keeper) }
        ensures counted { K.faults self.old.keeper ≤ K.faults self.new.keeper }
    {
        Ok(match self.keeper.get(alloc, session)? {
            Some(row) => Some((row.plugin.opened, row.agent.opened)),
            None => None,
        })
    }
}
