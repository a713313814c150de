//! The release of early items that follow one another.

ghost use Rattle.std.specs.Prelude.{◌≡◌, ℕ, ◌+◌, ◌-◌, ◌^◌, ◌<◌, ◌≤◌, ◌++◌, None, IsSome, vec_len};
ghost use Rattle.std.specs.Vec.{vec_capacity};
ghost use Rattle.receive_window.specs.Inside.{from_number};
ghost use Rattle.receive_window.specs.Window.{item_with, items_in_order};

use chan_values::Item;
use slot_ring::SlotRing;

/// Takes out the items below a number, where all of them are there but the next one, and makes that
/// number the next.
pub fn release(early: &mut SlotRing<Item>, to: u64, items: &mut Vec<Item>)
    requires above { early.old.base < to }
    requires small { to ≤ 2 ^ 63 }
    requires missing { item_with early.old.held early.old.base ≡ None }
    requires there { (n : ℕ)
        → early.old.base < n → n < to → IsSome (item_with early.old.held n) }
    requires room { vec_len items.old + (to - early.old.base - 1) ≤ vec_capacity items.old }
    ensures items { items.new.items
        ≡ items.old.items ++ items_in_order early.old.held (early.old.base + 1) to }
    ensures rest { early.new
        ≡ record early.old { base = to; held = from_number to early.old.held } }
{
    'releasing: for number in early.base() + 1..to {
        let Some(item) = early.remove(number) else {
            unreachable!()
        };
        items.push_reserved(item);
    }
    early.skip(to);
}
