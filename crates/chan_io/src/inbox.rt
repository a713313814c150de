//! The messages of a link in memory that come in.

ghost use Rattle.std.specs.Prelude.{◌≡◌, [], drop, IfOk, OnOk, OnErr, Some, None};
ghost use Rattle.chan_io.specs.LinksIn.{answered_with, next_of, unheard};

use crate::got::Got;
use chan_values::NoMemory;
use std::alloc::Global;
use std::marker::Model;

/// What a link in memory answered, and what is to come.
#[derive(Debug, Drop)]
pub(crate) struct Inbox {
    alloc: Global,
    content: Vec<Got>,
    at: usize,
    // None stands for a failure.
    answered: Vec<Option<Got>>,
}

impl Model for Inbox {
    ghost use Rattle.std.specs.Prelude.{drop};
    ghost use Rattle.chan_io.specs.LinksIn.{Arrivals};

    ghost Value = { Arrivals };

    ghost view = { λ b. record {
      answered = b.answered.items;
      coming = drop b.at b.content.items;
    } };
}

impl Inbox {
    /// Nothing was answered yet.
    pub(crate) fn new(alloc: Global, content: Vec<Got>) -> Inbox
        ensures { result ≡ unheard content.items }
    {
        Inbox {
            alloc,
            content,
            at: 0,
            answered: Vec::new(alloc),
        }
    }

    /// Answers the next message, and Gone after the last.
    pub(crate) fn receive(&mut self) -> Result<Got, NoMemory>
        ensures next { IfOk result (λ got. got ≡ next_of self.old.coming) }
        ensures answered { IfOk result (λ got. self.new ≡ answered_with (Some got) 1 self.old) }
        ensures same { OnErr result (self.new ≡ self.old) }
    {
        self.answered.reserve(1)?;
        let got = copy_at(self.alloc, &self.content, self.at)?;
        let again = got.copy(self.alloc)?;
        self.answered.push_reserved(Some(again));
        self.at = place_after(&self.content, self.at);
        Ok(got)
    }

    /// Answers a failure. No message is lost.
    pub(crate) fn fail(&mut self) -> Result<(), NoMemory>
        ensures answered { OnOk result (self.new ≡ answered_with None 0 self.old) }
        ensures same { OnErr result (self.new ≡ self.old) }
    {
        self.answered.push(None)?;
        Ok(())
    }
}

/// The next message of a list, Gone after its end.
fn copy_at(alloc: Global, content: &[Got], at: usize) -> Result<Got, NoMemory>
    ensures { IfOk result (λ got. got ≡ next_of (drop at content.now)) }
{
    match content.get(at) {
        Some(got) => got.copy(alloc),
        None => Ok(Got::Gone),
    }
}

/// The place after a place, which stays where the list ends there.
#[tactic(auto, using(crate::proofs::Places::drop_ended, crate::proofs::Places::drop_more))]
fn place_after(content: &[Got], at: usize) -> usize
    ensures { drop result content.now ≡ drop 1 (drop at content.now) }
{
    if at < content.len() { at + 1 } else { at }
}
