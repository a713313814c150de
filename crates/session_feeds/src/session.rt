//! What a run carries: the user's end of the channel.

ghost use Rattle.std.specs.Prelude.{◌≡◌, ℕ, Bool, true, false, List, All, Contains, Option, None, [], ◌∷◌};
ghost use Rattle.session_feeds.specs.Marks.{IsNew};
ghost use Rattle.session_feeds.specs.Sessions.{Account, AddsMarks, AllSmall, BringsBack, Gives, MayCall, Stays, TakesOut, feeders_of, made_ready, puts_in, refusal_in};
ghost use Rattle.session_feeds.specs.declared.session.SessionFault.{SessionFault};

use crate::feeder::Feeder;
use chan_values::Items;
use handshake::Why;
use session_run::Parcel;

/// What a session asks for.
#[derive(Drop)]
pub struct Verdict<F> {
    /// Items that are to be put in, in order: each with at most 65,536 payload bytes.
    pub puts: Items,
    /// Whether the last of them is to be put in as the last of its direction.
    pub last: bool,
    /// Feeders that are to be run, each in a worker of its own.
    pub feeders: Vec<F>,
    /// Whether the session is to end once all that was put in is acknowledged.
    pub finish: bool,
}

/// Why a session can't go on.
#[derive(Clone, Copy, Debug, PartialEq, Eq)]
pub enum SessionFault {
    /// The handshake refused an item.
    Handshake(Why),
    /// The child could not be started.
    Start,
    /// A call of the child failed.
    Child,
    /// A call of the ports failed.
    Port,
    /// A write to the user failed.
    Write,
    /// The bytes of the streams have a fault at this place.
    Frames(u64),
    /// There was no memory.
    NoMemory,
}

/// The user's end of the channel. `begin` comes once. `take` and `ready` come only after a `begin`
/// that was not refused, and after no refusal.
pub trait Session: Send + Drop {
    /// What brings its input.
    type F: Feeder;

    /// What its objects hold. No code holds it.
    type Contents;

    /// Which accounts it stands for.
    ghost stands: { Self → Account Self.Contents → Type 0 };

    /// The marks of its feeders that are out.
    ghost out: { Self → List ℕ };

    /// Whether it was begun.
    ghost begun: { Self → Bool };

    /// Which refusal one of its calls answered, if one did.
    ghost refused: { Self → Option SessionFault };

    /// Whether both sides agreed on the session.
    ghost agreed: { Self → Bool };

    /// Begins it.
    fn begin(&mut self, now: u64) -> Result<Verdict<Self::F>, SessionFault>
        requires { begun self.old ≡ false }
        ensures begun { begun self.new ≡ true }
        ensures stands { Gives (stands self.old) [] (puts_in result) (stands self.new) }
        ensures out { AddsMarks Self.F.Feeder.told (out self.old) (feeders_of result)
            (out self.new) }
        ensures refused { refused self.new ≡ refusal_in result }
        ensures fits { AllSmall (puts_in result) }
        ensures fresh { All (λ f. IsNew (Self.F.Feeder.told f)) (feeders_of result) };

    /// Takes a parcel.
    fn take(&mut self, now: u64, parcel: Parcel) -> Result<Verdict<Self::F>, SessionFault>
        requires { MayCall (begun self.old) (refused self.old) }
        ensures begun { begun self.new ≡ true }
        ensures stands { Gives (stands self.old) (parcel ∷ []) (puts_in result)
            (stands self.new) }
        ensures out { AddsMarks Self.F.Feeder.told (out self.old) (feeders_of result)
            (out self.new) }
        ensures refused { refused self.new ≡ refusal_in result }
        ensures fits { AllSmall (puts_in result) }
        ensures fresh { All (λ f. IsNew (Self.F.Feeder.told f)) (feeders_of result) };

    /// Tries again to place what earlier parcels left. Answers whether nothing of it is left, and
    /// gives the feeders that this made.
    fn ready(&mut self) -> Result<(bool, Vec<Self::F>), SessionFault>
        requires { MayCall (begun self.old) (refused self.old) }
        ensures begun { begun self.new ≡ true }
        ensures stands { Stays (stands self.old) (stands self.new) }
        ensures out { AddsMarks Self.F.Feeder.told (out self.old) (made_ready result)
            (out self.new) }
        ensures refused { refused self.new ≡ refusal_in result }
        ensures fresh { All (λ f. IsNew (Self.F.Feeder.told f)) (made_ready result) };

    /// Takes a feeder back that was out.
    fn back(&mut self, feeder: Self::F)
        requires { Contains (out self.old) (Self.F.Feeder.told feeder).mark }
        ensures out { TakesOut (Self.F.Feeder.told feeder) (out self.old) (out self.new) }
        ensures stands { BringsBack (Self.F.Feeder.told feeder) (stands self.old)
            (stands self.new) }
        ensures begun { begun self.new ≡ begun self.old }
        ensures refused { refused self.new ≡ refused self.old };

    /// Whether both sides agreed on the session.
    fn agreed(&self) -> bool
        ensures { result ≡ agreed self.now };
}
