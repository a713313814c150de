//! The slots of a ring: where a number has its slot, and slots without a value.

ghost use Rattle.std.specs.Prelude.{◌≡◌, ◌⊎◌, ◌+◌, ◌%◌, ◌<◌, ◌≤◌, IfOk, MatchOption, None, replicate, vec_len};

use std::alloc::{AllocError, Global};

/// The slot of a number, where it has room in a ring with this base and capacity.
pub fn place(base: u64, capacity: usize, number: u64) -> Option<usize>
    ensures { MatchOption result
        ((number < base) ⊎ (base + capacity ≤ number))
        (λ at. (base ≤ number) × (number < base + capacity) × (at ≡ number % capacity)) }
{
    if number < base || number - base >= capacity as u64 {
        return None;
    }
    Some((number % capacity as u64) as usize)
}

/// So many slots without a value.
pub fn empty_slots<T: Drop>(alloc: Global, capacity: usize) -> Result<Vec<Option<T>>, AllocError>
    ensures sized { IfOk result (λ slots. vec_len slots ≡ capacity) }
    ensures empty { IfOk result (λ slots. slots.items ≡ replicate capacity None) }
{
    let mut slots = Vec::with_capacity(alloc, capacity)?;
    for count in 0..capacity {
        slots.push_reserved(None);
    }
    Ok(slots)
}
