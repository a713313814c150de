//! The laws of generated scripts.
//!
//! A law is the contract of a function with an empty body, by the definitions of `specs/`.

ghost use Rattle.lab_gen.specs.Laws.{GeneratedIsScript, GeneratedLaws, GeneratedReleasesAll};

/// Each line of a generated script of at most 1,000,000 rounds is a command of a script.
pub fn generated_is_script()
    ensures { GeneratedIsScript }
{}

/// After a generated script in which neither end gave up, each end has released as many items as the
/// other end's user put in.
pub fn generated_releases_all()
    ensures { GeneratedReleasesAll }
{}

/// Both of these.
pub fn generated_laws()
    ensures { GeneratedLaws }
{}
