//! Tables: entries in the order of windows, barred entries, refusals with nothing changed.
use channel::{Channel, Sample};
use cost::Cost;
use std::process::Abort;
use std::test::Fail;
use table::{Entry, Table};

const ZERO: Entry = Entry::Expected {
    first: 0,
    second: 0,
};

fn sample(first: i32, second: i32) -> Sample {
    Sample { first, second }
}

fn expects(first: i32, second: i32) -> Entry {
    Entry::Expected { first, second }
}

// Four entries, the third barred, and the noise 8.
fn four() -> [Entry; 4] {
    [expects(1, 2), expects(-3, 4), Entry::Barred, expects(5, -6)]
}

fn loaded(memory: i32, entries: &[Entry], noise: i32) -> Result<Table, Fail> {
    let mut channel = Table::blank();
    channel.load(memory, entries, noise)?;
    Ok(channel)
}

#[test]
fn both_squared_differences_are_priced(rt: HostRuntime) -> Result<(), Fail> {
    let channel = loaded(1, &four(), 8)?;
    assert_eq!(rt; channel.cost(sample(1, 2), 0), Cost::Eighths(0));
    assert_eq!(rt; channel.cost(sample(0, 0), 0), Cost::Eighths(5));
    assert_eq!(rt; channel.cost(sample(0, 0), 1), Cost::Eighths(25));
    assert_eq!(rt; channel.cost(sample(0, 0), 2), Cost::Barred);
    assert_eq!(rt; channel.cost(sample(0, 0), 3), Cost::Eighths(61));
    assert_eq!(rt; channel.cost(sample(0, 0), 4), Cost::Barred);
    Ok(())
}

#[test]
fn a_cost_is_capped_and_its_fraction_dropped(rt: HostRuntime) -> Result<(), Fail> {
    let entries = [expects(-8191, 8191); 4];
    let far = sample(2047, -2048);
    assert_eq!(rt; loaded(1, &entries, 1)?.cost(far, 3), Cost::Eighths(65_535));
    assert_eq!(rt;
        loaded(1, &entries, 1_000_000)?.cost(far, 3),
        Cost::Eighths(1677)
    );
    Ok(())
}

#[test]
fn all_windows_may_be_barred(rt: HostRuntime) -> Result<(), Fail> {
    let channel = loaded(2, &[Entry::Barred; 16], 8)?;
    assert!(rt; channel.takes(sample(0, 0)));
    assert_eq!(rt; channel.cost(sample(0, 0), 0), Cost::Barred);
    assert_eq!(rt; channel.cost(sample(0, 0), 15), Cost::Barred);
    assert_eq!(rt; channel.entries(), [Entry::Barred; 16].as_slice());
    Ok(())
}

#[test]
fn every_sample_in_range_is_taken(rt: HostRuntime) {
    let channel = Table::blank();
    assert!(rt; channel.takes(sample(-2048, 2047)));
    assert!(rt; !channel.takes(sample(-2049, 0)));
    assert!(rt; !channel.takes(sample(0, 2048)));
    assert_eq!(rt; channel.cost(sample(0, 2048), 0), Cost::Barred);
}

#[test]
fn a_blank_table_expects_0_and_0(rt: HostRuntime) {
    let channel = Table::blank();
    assert_eq!(rt; channel.memory(), 1);
    assert_eq!(rt; channel.entries(), [ZERO; 4].as_slice());
    assert_eq!(rt; channel.noise(), 8);
    assert_eq!(rt; channel.cost(sample(3, 4), 3), Cost::Eighths(25));
}

// Refuses the load with this number, and leaves the channel.
fn refuses(
    rt: &impl Abort,
    memory: i32,
    entries: &[Entry],
    noise: i32,
    number: u8,
) -> Result<(), Fail> {
    let mut channel = loaded(1, &four(), 5)?;
    match channel.load(memory, entries, noise) {
        Ok(()) => return Err(Fail::new("loaded")),
        Err(refusal) => assert_eq!(rt; refusal.number(), number),
    }
    assert_eq!(rt; channel.memory(), 1);
    assert_eq!(rt; channel.entries(), four().as_slice());
    assert_eq!(rt; channel.noise(), 5);
    Ok(())
}

#[test]
fn a_wrong_number_of_entries_is_refused_first(rt: HostRuntime) -> Result<(), Fail> {
    refuses(&rt, 1, &[], 8, 1)?;
    refuses(&rt, 1, &[ZERO; 3], 8, 1)?;
    refuses(&rt, 1, &[ZERO; 5], 8, 1)?;
    refuses(&rt, 4, &[ZERO; 255], 8, 1)?;
    refuses(&rt, 4, &[ZERO; 257], 8, 1)?;
    refuses(&rt, 2, &[ZERO; 4], 8, 1)?;
    refuses(&rt, 1, &[expects(8192, 0); 5], 0, 1)
}

#[test]
fn a_memory_that_is_not_allowed_is_refused_first(rt: HostRuntime) -> Result<(), Fail> {
    refuses(&rt, 0, &[ZERO; 1], 8, 1)?;
    refuses(&rt, 0, &[], 8, 1)?;
    refuses(&rt, 5, &[ZERO; 256], 8, 1)?;
    refuses(&rt, 9, &[ZERO; 4], 8, 1)?;
    refuses(&rt, -1, &[ZERO; 4], 8, 1)?;
    refuses(&rt, i32::MIN, &[ZERO; 4], 8, 1)?;
    refuses(&rt, i32::MAX, &[expects(8192, 0); 4], 0, 1)
}

#[test]
fn an_entry_or_noise_out_of_range_is_refused(rt: HostRuntime) -> Result<(), Fail> {
    refuses(&rt, 1, &[expects(8192, 0); 4], 8, 2)?;
    refuses(&rt, 1, &[expects(0, 8192); 4], 8, 2)?;
    refuses(&rt, 1, &[expects(-8192, 0); 4], 8, 2)?;
    refuses(&rt, 1, &[ZERO, ZERO, ZERO, expects(0, -8192)], 8, 2)?;
    refuses(&rt, 1, &[expects(i32::MIN, i32::MAX); 4], 8, 2)?;
    refuses(&rt, 1, &[ZERO; 4], 0, 2)?;
    refuses(&rt, 1, &[ZERO; 4], -1, 2)?;
    refuses(&rt, 1, &[ZERO; 4], 1_000_001, 2)
}

#[test]
fn the_widest_load_is_taken(rt: HostRuntime) -> Result<(), Fail> {
    let widest = [expects(-8191, 8191); 256];
    let mut channel = loaded(4, &widest, 1_000_000)?;
    assert_eq!(rt; channel.memory(), 4);
    assert_eq!(rt; channel.entries(), widest.as_slice());
    assert_eq!(rt; channel.noise(), 1_000_000);
    assert_eq!(rt; channel.cost(sample(-2048, 2047), 255), Cost::Eighths(603));
    channel.load(1, &four(), 1)?;
    assert_eq!(rt; channel.memory(), 1);
    assert_eq!(rt; channel.entries(), four().as_slice());
    assert_eq!(rt; channel.noise(), 1);
    Ok(())
}
