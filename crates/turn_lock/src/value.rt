//! The values that a lock keeps.
ghost use Rattle.std.specs.Prelude.{◌≡◌, List};
ghost use Rattle.turn_lock.specs.Histories.{Continues};

/// A value whose calls have histories. A history is a list of calls, each with its answer.
pub trait Turn {
    /// What can be asked of the value.
    type Call;

    /// What a call is answered.
    type Answer;

    /// Plain data that no call changes, on which the legal histories may depend. No code holds it.
    type Setting;

    // Which histories there are with a setting.
    ghost legal: { Self.Setting → List (Self.Call × Self.Answer) → Type 0 };

    // Which histories a value stands for.
    ghost stands: { Self → List (Self.Call × Self.Answer) → Type 0 };

    // Which calls may be made.
    ghost callable: { Self.Call → Type 0 };

    // The setting of a value.
    ghost setting: { Self → Self.Setting };

    // Any setting. It fills the views of seats that were joined into others.
    ghost unset: { Self.Setting };

    /// Makes one call. The value then stands for one more entry.
    fn act(&mut self, call: Self::Call) -> Self::Answer
        requires { callable call }
        ensures setting { setting self.new ≡ setting self.old }
        ensures history { Continues legal setting stands self.old call result self.new };
}
