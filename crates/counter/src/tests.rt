// Worked examples of each kind and of the counter that settings pick.
use crate::counter::Counter;
use crate::downward::Downward;
use crate::full_range::FullRange;
use crate::meaning::{Crossing, OutsideLimits};
use crate::mode::{MainDirection, Mode};
use crate::periodic::Periodic;
use crate::picked::PickedCounter;
use crate::upward::Upward;
use std::test::Fail;

// The pulses, one after the other: the reading after the last, and its crossing. One function for ups
// and downs would have to be told the method, and the tests would read no plainer.
fn ups<C: Counter>(counter: &mut C, pulses: u8) -> (i32, Option<Crossing>) {
    let mut crossing = None;
    for _ in 0..pulses {
        crossing = counter.up();
    }
    (counter.meaning().reading, crossing)
}

fn downs<C: Counter>(counter: &mut C, pulses: u8) -> (i32, Option<Crossing>) {
    let mut crossing = None;
    for _ in 0..pulses {
        crossing = counter.down();
    }
    (counter.meaning().reading, crossing)
}

#[test]
fn endless_goes_round(rt: HostRuntime) {
    let mut counter = FullRange::new(2147483646, false);
    assert_eq!(rt; ups(&mut counter, 1), (2147483647, None));
    assert_eq!(rt;
        ups(&mut counter, 1),
        (-2147483648, Some(Crossing::Overflow))
    );
    assert_eq!(rt;
        downs(&mut counter, 1),
        (2147483647, Some(Crossing::Underflow))
    );
    counter.put();
    assert_eq!(rt; counter.meaning().reading, 2147483646);
}

#[test]
fn once_stops_and_lands_at_the_other_end(rt: HostRuntime) {
    let mut counter = FullRange::new(-2147483648, true);
    assert!(rt; counter.meaning().stops);
    assert_eq!(rt;
        downs(&mut counter, 1),
        (2147483647, Some(Crossing::Underflow))
    );
    assert_eq!(rt;
        ups(&mut counter, 1),
        (-2147483648, Some(Crossing::Overflow))
    );
}

#[test]
fn periodic_lands_on_its_load_from_both_ends(rt: HostRuntime) {
    let mut counter = Periodic::new(2147483647);
    assert_eq!(rt; counter.set_load(-7), Ok(()));
    assert_eq!(rt; counter.meaning().reading, 2147483647);
    assert_eq!(rt; ups(&mut counter, 1), (-7, Some(Crossing::Overflow)));
    assert_eq!(rt; counter.set_load(-2147483648), Ok(()));
    counter.put();
    assert_eq!(rt; counter.set_load(12), Ok(()));
    assert_eq!(rt; downs(&mut counter, 1), (12, Some(Crossing::Underflow)));
}

#[test]
fn upward_from_load_three_to_end_ten(rt: HostRuntime) -> Result<(), Fail> {
    let mut counter = Upward::new(10, 3, false).ok_or("refused")?;
    assert_eq!(rt; ups(&mut counter, 6), (9, None));
    assert_eq!(rt; ups(&mut counter, 1), (3, Some(Crossing::Overflow)));
    assert_eq!(rt; ups(&mut counter, 2), (5, None));
    assert_eq!(rt; downs(&mut counter, 1), (4, None));
    assert_eq!(rt; counter.set_load(10), Err(OutsideLimits));
    assert_eq!(rt; counter.meaning().load, 3);
    assert_eq!(rt; counter.set_load(-2147483648), Ok(()));
    counter.put();
    assert_eq!(rt; downs(&mut counter, 1), (9, Some(Crossing::Underflow)));
    Ok(())
}

#[test]
fn downward_from_load_five_to_one(rt: HostRuntime) -> Result<(), Fail> {
    let mut counter = Downward::new(8, 5, true).ok_or("refused")?;
    assert!(rt; counter.meaning().stops);
    assert_eq!(rt; downs(&mut counter, 4), (1, None));
    assert_eq!(rt; downs(&mut counter, 1), (5, Some(Crossing::Underflow)));
    assert_eq!(rt; ups(&mut counter, 3), (8, None));
    assert_eq!(rt; ups(&mut counter, 1), (1, Some(Crossing::Overflow)));
    assert_eq!(rt; counter.set_load(0), Err(OutsideLimits));
    assert_eq!(rt; counter.set_load(9), Err(OutsideLimits));
    assert_eq!(rt; counter.set_load(8), Ok(()));
    assert_eq!(rt; downs(&mut counter, 1), (8, Some(Crossing::Underflow)));
    Ok(())
}

// The limits of the picked counter, or nothing where there is none.
fn limits(mode: Mode, direction: MainDirection, end: i32, load: i32) -> Option<(i32, i32, bool)> {
    let counter = PickedCounter::new(mode, direction, end, load)?;
    Some((
        counter.meaning().low,
        counter.meaning().high,
        counter.meaning().stops,
    ))
}

#[test]
fn picked_by_its_row(rt: HostRuntime) {
    let free = (-2147483648, 2147483647);
    assert_eq!(rt;
        limits(Mode::Endless, MainDirection::Neither, 2, 9),
        Some((free.0, free.1, false))
    );
    assert_eq!(rt; limits(Mode::Endless, MainDirection::Up, 10, 3), None);
    assert_eq!(rt; limits(Mode::Endless, MainDirection::Neither, 1, 9), None);
    assert_eq!(rt;
        limits(Mode::Once, MainDirection::Neither, 2, 9),
        Some((free.0, free.1, true))
    );
    assert_eq!(rt;
        limits(Mode::Once, MainDirection::Up, 10, 9),
        Some((free.0, 9, true))
    );
    assert_eq!(rt; limits(Mode::Once, MainDirection::Up, 10, 10), None);
    assert_eq!(rt;
        limits(Mode::Periodic, MainDirection::Down, 10, 10),
        Some((1, 10, false))
    );
    assert_eq!(rt; limits(Mode::Periodic, MainDirection::Down, 10, 11), None);
    assert_eq!(rt; limits(Mode::Periodic, MainDirection::Down, 10, 0), None);
}

#[test]
fn picked_counts_as_its_kind(rt: HostRuntime) -> Result<(), Fail> {
    let mut up = PickedCounter::new(Mode::Periodic, MainDirection::Up, 10, 3).ok_or("refused")?;
    assert_eq!(rt; ups(&mut up, 9), (5, None));
    let mut free = PickedCounter::new(Mode::Periodic, MainDirection::Neither, 2, 4).ok_or(
        "refused",
    )?;
    assert_eq!(rt; ups(&mut free, 3), (7, None));
    assert_eq!(rt; free.set_load(-5), Ok(()));
    free.put();
    assert_eq!(rt; downs(&mut free, 2), (-7, None));
    Ok(())
}
