//! The laws of journals: what holds of the journal of every script.
//!
//! A law is the contract of a function with an empty body, by the definitions of `specs/`.

ghost use Rattle.lab_journal.specs.Laws.{JournalIsAccepted, JournalLaws, RecordsAreExplained, RecordsAreFormed, RecordsSayWorld};

/// The records of a script say what is seen of its world, in its order.
pub fn records_say_world()
    ensures { RecordsSayWorld }
{}

/// None of them has a fault of form.
pub fn records_are_formed()
    ensures { RecordsAreFormed }
{}

/// The script's own world is a legal and honest one that has them.
pub fn records_are_explained()
    ensures { RecordsAreExplained }
{}

/// So the verdict on the journal of a script, with the window of its ends, is Yes.
pub fn journal_is_accepted()
    ensures { JournalIsAccepted }
{}

/// All of these together.
pub fn journal_laws()
    ensures { JournalLaws }
{}
