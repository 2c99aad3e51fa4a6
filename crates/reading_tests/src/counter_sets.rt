//! Sets of counters at their limits.
use counter_bits::CounterBits;
use std::test::Fail;

#[test]
fn lists_the_first_and_the_last_counter_of_each_card(rt: HostRuntime) -> Result<(), Fail> {
    let alloc = rt.alloc();
    let mut bits = CounterBits::new(alloc, 2)?;
    let mut list = Vec::new(alloc);
    bits.add(0, 65_535);
    bits.add(1, 64);
    bits.add(1, 0);
    bits.add(1, 64);
    bits.list_into(0, 5, &mut list)?;
    bits.list_into(1, 7, &mut list)?;
    assert_eq!(rt; list.as_slice(), [(5, 65_535), (7, 0), (7, 64)].as_slice());
    assert!(rt; bits.has(1, 64) && !bits.has(0, 64) && !bits.has(1, 63));
    Ok(())
}
