//! Codes: coded bits and costs, refusals with nothing changed.
use channel::{Channel, Sample};
use code::Code;
use cost::Cost;
use std::process::Abort;
use std::test::Fail;

fn sample(first: i32, second: i32) -> Sample {
    Sample { first, second }
}

fn loaded(memory: i32, first: i32, second: i32) -> Result<Code, Fail> {
    let mut channel = Code::blank();
    channel.load(memory, first, second)?;
    Ok(channel)
}

#[test]
fn a_sample_is_priced_by_both_coded_bits(rt: HostRuntime) -> Result<(), Fail> {
    let channel = loaded(3, 7, 5)?;
    assert_eq!(rt; channel.first_bit(3), 0);
    assert_eq!(rt; channel.second_bit(3), 1);
    assert_eq!(rt; channel.cost(sample(4, -6), 3), Cost::Eighths(10));
    assert_eq!(rt; channel.cost(sample(-4, 6), 3), Cost::Eighths(0));
    assert_eq!(rt; channel.cost(sample(4, -6), 4), Cost::Eighths(6));
    assert_eq!(rt; channel.cost(sample(4, -6), 0), Cost::Eighths(4));
    Ok(())
}

#[test]
fn bit_i_of_a_mask_stands_for_the_symbol_i_places_back(rt: HostRuntime) -> Result<(), Fail> {
    let channel = loaded(8, 128, 1)?;
    assert_eq!(rt; channel.first_bit(128), 1);
    assert_eq!(rt; channel.first_bit(127), 0);
    assert_eq!(rt; channel.second_bit(1), 1);
    assert_eq!(rt; channel.second_bit(254), 0);
    assert_eq!(rt; loaded(8, 255, 0)?.first_bit(255), 0);
    assert_eq!(rt; loaded(8, 255, 0)?.first_bit(254), 1);
    Ok(())
}

#[test]
fn the_widest_samples_are_priced(rt: HostRuntime) -> Result<(), Fail> {
    let channel = loaded(8, 255, 255)?;
    assert_eq!(rt; channel.cost(sample(2047, 2047), 255), Cost::Eighths(4094));
    assert_eq!(rt; channel.cost(sample(-2048, -2048), 1), Cost::Eighths(4096));
    assert_eq!(rt; channel.cost(sample(-2048, -2048), 256), Cost::Barred);
    Ok(())
}

#[test]
fn every_sample_in_range_is_taken(rt: HostRuntime) {
    let channel = Code::blank();
    assert!(rt; channel.takes(sample(-2048, 2047)));
    assert!(rt; !channel.takes(sample(-2049, 0)));
    assert!(rt; !channel.takes(sample(0, 2048)));
    assert_eq!(rt; channel.cost(sample(0, 2048), 0), Cost::Barred);
}

#[test]
fn a_blank_code_has_memory_1_and_masks_0(rt: HostRuntime) {
    let channel = Code::blank();
    assert_eq!(rt; channel.memory(), 1);
    assert_eq!(rt; channel.first_mask(), 0);
    assert_eq!(rt; channel.second_mask(), 0);
    assert_eq!(rt; channel.cost(sample(3, 4), 1), Cost::Eighths(7));
    assert_eq!(rt; channel.cost(sample(3, 4), 2), Cost::Barred);
}

// Refuses the load with this number, and leaves the channel.
fn refuses(rt: &impl Abort, memory: i32, first: i32, second: i32, number: u8) -> Result<(), Fail> {
    let mut channel = loaded(3, 7, 5)?;
    match channel.load(memory, first, second) {
        Ok(()) => return Err(Fail::new("loaded")),
        Err(refusal) => assert_eq!(rt; refusal.number(), number),
    }
    assert_eq!(rt; channel.memory(), 3);
    assert_eq!(rt; channel.first_mask(), 7);
    assert_eq!(rt; channel.second_mask(), 5);
    Ok(())
}

#[test]
fn a_memory_that_is_not_allowed_is_refused_first(rt: HostRuntime) -> Result<(), Fail> {
    refuses(&rt, 0, 0, 0, 1)?;
    refuses(&rt, 9, 0, 0, 1)?;
    refuses(&rt, -1, 0, 0, 1)?;
    refuses(&rt, i32::MAX, 0, 0, 1)?;
    refuses(&rt, i32::MIN, 0, 0, 1)?;
    refuses(&rt, 0, -1, 1, 1)?;
    refuses(&rt, 9, 512, 512, 1)
}

#[test]
fn a_mask_out_of_range_is_refused(rt: HostRuntime) -> Result<(), Fail> {
    refuses(&rt, 1, 2, 0, 2)?;
    refuses(&rt, 1, 0, 2, 2)?;
    refuses(&rt, 8, 256, 0, 2)?;
    refuses(&rt, 8, 0, 256, 2)?;
    refuses(&rt, 8, -1, 0, 2)?;
    refuses(&rt, 8, 0, -1, 2)?;
    refuses(&rt, 8, i32::MAX, 0, 2)?;
    refuses(&rt, 8, 0, i32::MIN, 2)
}

#[test]
fn the_greatest_masks_are_loaded(rt: HostRuntime) -> Result<(), Fail> {
    let mut channel = loaded(8, 255, 255)?;
    assert_eq!(rt; channel.memory(), 8);
    assert_eq!(rt; channel.first_mask(), 255);
    assert_eq!(rt; channel.second_mask(), 255);
    channel.load(1, 1, 0)?;
    assert_eq!(rt; channel.memory(), 1);
    assert_eq!(rt; channel.first_mask(), 1);
    assert_eq!(rt; channel.second_mask(), 0);
    Ok(())
}
