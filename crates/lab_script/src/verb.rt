//! The first word of a line.

ghost use Rattle.std.specs.Prelude.{◌≡◌, ◌≢◌, IfSome, IfNone};
ghost use Rattle.lab_script.specs.declared.verb.Verb.{Verb};
ghost use Rattle.lab_script.specs.Verb.{verb_text};

/// What a line of a script asks for, or a line of a report tells of.
#[derive(Clone, Copy, Debug, PartialEq, Eq)]
pub enum Verb {
    /// The moment is set.
    At,
    /// An end puts an item.
    Put,
    /// An end puts an item as the last of its direction.
    Last,
    /// An end pulls.
    Pull,
    /// An end ticks.
    Tick,
    /// An end closes.
    Close,
    /// An end hears an emission of the other.
    Hear,
    /// An end is given a damaged emission of the other.
    Hurt,
    /// An end loses its connection.
    Lost,
    /// An end has a connection.
    Open,
    /// An end hears a pause.
    Pause,
    /// An end hears a start.
    Start,
    /// An end hears a closing.
    End,
    /// Both ends connect anew and exchange all that is left.
    Settle,
    /// The plugin's end opens a stream.
    StreamOpen,
    /// An end writes to a stream.
    StreamWrite,
    /// An end closes a stream.
    StreamClose,
    /// An end puts an item of what its streams give out.
    StreamPush,
    /// An end takes what came for a stream.
    StreamTake,
    /// Something became of a stream at an end. No line of a script begins so.
    StreamEvent,
    /// An end has a new connection to the relay.
    Dial,
    /// An end's connection to the relay is gone.
    Gone,
    /// An emission of an end goes to the relay.
    Post,
    /// An end hears what the relay sent to it.
    Take,
    /// The relay is told that the session ends.
    Finish,
}

impl Verb {
    /// The verb that a word spells.
    pub fn read(word: &[u8]) -> Option<Verb>
        ensures found { IfSome result (λ verb. verb_text verb ≡ word.now) }
        ensures none { IfNone result ((verb : Verb) → verb_text verb ≢ word.now) }
    {
        match word {
            b"at" => Some(Verb::At),
            b"put" => Some(Verb::Put),
            b"last" => Some(Verb::Last),
            b"pull" => Some(Verb::Pull),
            b"tick" => Some(Verb::Tick),
            b"close" => Some(Verb::Close),
            b"hear" => Some(Verb::Hear),
            b"hurt" => Some(Verb::Hurt),
            b"lost" => Some(Verb::Lost),
            b"open" => Some(Verb::Open),
            b"pause" => Some(Verb::Pause),
            b"start" => Some(Verb::Start),
            b"end" => Some(Verb::End),
            b"settle" => Some(Verb::Settle),
            b"sopen" => Some(Verb::StreamOpen),
            b"swrite" => Some(Verb::StreamWrite),
            b"sclose" => Some(Verb::StreamClose),
            b"spush" => Some(Verb::StreamPush),
            b"stake" => Some(Verb::StreamTake),
            b"stream" => Some(Verb::StreamEvent),
            b"dial" => Some(Verb::Dial),
            b"gone" => Some(Verb::Gone),
            b"post" => Some(Verb::Post),
            b"take" => Some(Verb::Take),
            b"finish" => Some(Verb::Finish),
            _ => None,
        }
    }

    /// The word of the verb.
    pub fn text(self) -> &'static str
        ensures { result.now ≡ verb_text self }
    {
        match self {
            Verb::At => "at",
            Verb::Put => "put",
            Verb::Last => "last",
            Verb::Pull => "pull",
            Verb::Tick => "tick",
            Verb::Close => "close",
            Verb::Hear => "hear",
            Verb::Hurt => "hurt",
            Verb::Lost => "lost",
            Verb::Open => "open",
            Verb::Pause => "pause",
            Verb::Start => "start",
            Verb::End => "end",
            Verb::Settle => "settle",
            Verb::StreamOpen => "sopen",
            Verb::StreamWrite => "swrite",
            Verb::StreamClose => "sclose",
            Verb::StreamPush => "spush",
            Verb::StreamTake => "stake",
            Verb::StreamEvent => "stream",
            Verb::Dial => "dial",
            Verb::Gone => "gone",
            Verb::Post => "post",
            Verb::Take => "take",
            Verb::Finish => "finish",
        }
    }
}
