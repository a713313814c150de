//! The laws on which the auditor stands.
//!
//! What can be seen of an end are its acts: what it gives out and hears, its openings, losses and its
//! close. The replay makes the entries of a history for them, as few and as late as can be. A run is
//! a list of the acts of both ends of which each can be replayed after those before it.
//! A law is the contract of a function with an empty body, by the definitions of `specs/`.

ghost use Rattle.session_audit.specs.Laws.{OrderIsFree, ReplayFollows, RunIsWorld, StuckIsDone, WorldIsRun};
ghost use Rattle.session_audit.specs.Verdict.{AcceptedIsExplained, ExplainedIsAccepted, ExplainedIsNotLeft, ExplainedIsYes, JournalHasOneVerdict, VerdictIsOne, YesIsExplained};

/// What a legal history shows next can be replayed after what it showed before.
pub fn replay_follows()
    ensures { ReplayFollows }
{}

/// The world that is replayed for a run is legal and honest, and shows the run.
pub fn run_is_world()
    ensures { RunIsWorld }
{}

/// What is seen of a legal and honest world is a run.
pub fn world_is_run()
    ensures { WorldIsRun }
{}

/// A run that is stuck has come as far at each end as any run: the order between the ends is free.
pub fn order_is_free()
    ensures { OrderIsFree }
{}

/// Where a world shows these acts at its ends, a run that is stuck has done them all.
pub fn stuck_is_done()
    ensures { StuckIsDone }
{}

/// Where the records of a journal are all replayed, the replay is a world that explains them.
pub fn accepted_is_explained()
    ensures { AcceptedIsExplained }
{}

/// Where a world explains the records of a journal, they are all replayed.
pub fn explained_is_accepted()
    ensures { ExplainedIsAccepted }
{}

/// Where a world explains the records of a journal, no replay of them halts before their end.
pub fn explained_is_not_left()
    ensures { ExplainedIsNotLeft }
{}

/// Where each record says at most one act, the records of a journal that are left have one first, a
/// journal with records left is not one whose records are all replayed, and the totals are one.
pub fn verdict_is_one()
    ensures { VerdictIsOne }
{}

/// A journal with the verdict Yes is one that a legal and honest world has, with these totals.
pub fn yes_is_explained()
    ensures { YesIsExplained }
{}

/// A journal without a fault of form that a legal and honest world has, gets the verdict Yes.
pub fn explained_is_yes()
    ensures { ExplainedIsYes }
{}

/// A journal is refused at one place and for one reason, and then it doesn't get the verdict Yes.
pub fn journal_has_one_verdict()
    ensures { JournalHasOneVerdict }
{}
