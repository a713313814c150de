//! What the streams of a user tell.

use std::marker::Model;

/// What the three streams of a user told at first. Contracts alone see it: its value is of no use.
#[derive(Debug, Drop)]
pub struct Streams {
    unit: (),
}

impl Model for Streams {
    ghost use Rattle.shell_session.specs.Streams.{StreamsTold, nothing_told};

    ghost Value = { StreamsTold };

    ghost view = { λ _. nothing_told };
}
