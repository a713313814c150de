//! A message of which a byte of the payload was changed on its way.

ghost use Rattle.std.specs.Prelude.{◌≡◌, ℕ, ◌+◌, ◌<◌, ◌≤◌, Some, IfOk, MatchOption, length};
ghost use Rattle.chan_values.specs.Sides.{other};
ghost use Rattle.channel_core.specs.declared.message.Outgoing.{Outgoing};
ghost use Rattle.channel_core.specs.Wire.{encoding};
ghost use Rattle.lab_run.specs.Damage.{damaged, outcome_of_hurt, payload_start};
ghost use Rattle.lab_run.specs.Ends.{IsSendable};

use crate::outcome::outcome_of_refusal;
use chan_values::{NoMemory, Side};
use channel_core::wire::incoming;
use lab_script::Outcome;
use std::alloc::Global;

/// Where the payload of an encoded message begins, behind PayloadLength: the fields before it have fixed
/// lengths.
const PAYLOAD_START: u64 = 120;

/// The bytes of an emission come to this side with this byte of the payload changed, if it is there. No
/// end hears them.
pub fn hurt(alloc: Global, side: Side, bytes: &[u8], place: u64) -> Result<Outcome, NoMemory>
    ensures { (out : Outgoing)
        → IsSendable (other side) out
        → bytes.now ≡ encoding (other side) out
        → IfOk result (λ outcome. outcome ≡ outcome_of_hurt side place (Some out)) }
{
    let Some(damaged) = damage(alloc, bytes, place)? else {
        return Ok(Outcome::Absent);
    };
    match incoming(alloc, side, damaged.as_slice()) {
        Ok(_) => Ok(Outcome::Passed),
        Err(refusal) => outcome_of_refusal(refusal),
    }
}

/// A copy of an encoded message with a byte of its payload changed by exclusive or with 1, if it is there.
fn damage(alloc: Global, bytes: &[u8], place: u64) -> Result<Option<Vec<u8>>, NoMemory>
    ensures { let at = payload_start + place in
        IfOk result (λ copied. MatchOption copied (length bytes.now ≤ at)
        (λ copy. (at < length bytes.now) × (copy.items ≡ damaged bytes.now at))) }
{
    let at = place.saturating_add(PAYLOAD_START) as usize;
    if at >= bytes.len() {
        return Ok(None);
    }
    let mut copy = Vec::from_slice(alloc, bytes)?;
    copy[at] ^= 1;
    Ok(Some(copy))
}
