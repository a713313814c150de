use crate::SlotRing;
use std::test::Fail;

#[test]
fn values_keep_their_numbers_as_the_base_rises(rt: HostRuntime) -> Result<(), Fail> {
    let mut ring: SlotRing<u64> = SlotRing::new(rt.alloc(), 6, 3)?;
    assert!(rt; ring.set(6, 60).is_none(), "six is new");
    assert!(rt; ring.set(7, 70).is_none(), "seven is new");
    assert!(rt; ring.remove(6) == Some(60), "six is taken out");
    assert!(rt; ring.remove(6).is_none(), "once");
    ring.skip(10);
    assert!(rt; ring.base() == 7, "seven is the first");
    assert!(rt; ring.set(9, 90).is_none(), "nine has the slot that six had");
    assert!(rt; ring.set(7, 71) == Some(70), "seven is replaced");
    assert!(rt; ring.get(7) == Some(&71), "by this");
    assert!(rt; ring.get(8).is_none(), "eight has none");
    assert!(rt; ring.get(9) == Some(&90), "nine has its own");
    assert!(rt; ring.next_free(7) == 8, "eight is free");
    assert!(rt; ring.next_taken(8, 12) == 9, "nine is not");
    assert!(rt; ring.next_taken(10, 12) == 12, "all others are");
    assert!(rt; ring.len() == 2, "there are two");
    Ok(())
}
