// A clock in memory shows what it was given, one reading each time that it is asked.
use af_live::{MemClock, ToldClock};
use std::time::Duration;

#[test]
fn a_clock_in_memory_shows_its_readings(rt: HostRuntime) {
    let readings = [
        Some(Duration::from_millis(5)),
        None,
        Some(Duration::from_millis(7)),
    ];
    let mut clock = MemClock::new(&readings);
    for shown in &readings {
        assert!(&rt; clock.ask() == *shown, "a reading");
    }
    assert!(&rt; clock.ask() == None, "after the last");
}
