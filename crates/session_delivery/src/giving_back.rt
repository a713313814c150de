//! What a deliverer does with the feeders that come back.

ghost use Rattle.std.specs.Prelude.{◌≡◌, All, ℕ, map};
ghost use Rattle.session_feeds.specs.Marks.{ComesBack, IsNew, times};
ghost use Rattle.session_feeds.specs.Sessions.{AllCameBack};
ghost use Rattle.session_crews.specs.Places.{feeders_in};

use session_crews::Feeders;
use session_feeds::Session;
use std::sync::Wait;

/// Gives feeders back to their session, in order, each of which is out when its turn comes.
pub(crate) fn give_back<R: Wait, S: Session>(rt: &R, session: &mut S, mut feeders: Feeders<S::F>)
    requires { (left : ℕ → ℕ) × ComesBack (times (S.out session.old))
        (map S.F.Feeder.told (feeders_in feeders.list)) left }
    ensures out { (left : ℕ → ℕ)
        → ComesBack (times (S.out session.old)) (map S.F.Feeder.told (feeders_in feeders.list)) left
        → (q : ℕ) → times (S.out session.new) q ≡ left q }
    ensures stands { AllCameBack (S.stands session.old)
        (map S.F.Feeder.told (feeders_in feeders.list)) (S.stands session.new) }
    ensures begun { S.begun session.new ≡ S.begun session.old }
    ensures refused { S.refused session.new ≡ S.refused session.old }
{
    for _ in rt.forever() {
        match feeders.take_first(rt) {
            Some(feeder) => session.back(feeder),
            None => return,
        }
    }
    unreachable!()
}

/// Gives feeders back to their session that were not started.
pub(crate) fn give_back_left<S: Session>(session: &mut S, mut left: Vec<S::F>)
    requires { (after : ℕ → ℕ)
        × ComesBack (times (S.out session.old)) (map S.F.Feeder.told left.items) after }
    ensures out { (after : ℕ → ℕ)
        → ComesBack (times (S.out session.old)) (map S.F.Feeder.told left.items) after
        → (q : ℕ) → times (S.out session.new) q ≡ after q }
    ensures stands { AllCameBack (S.stands session.old) (map S.F.Feeder.told left.items)
        (S.stands session.new) }
    ensures begun { S.begun session.new ≡ S.begun session.old }
    ensures refused { S.refused session.new ≡ S.refused session.old }
{
    while !left.is_empty() {
        session.back(left.remove(0));
    }
}
