//! Taps: costs at the cap and at the fraction, refusals with nothing changed.
use channel::{Channel, Sample};
use cost::Cost;
use std::process::Abort;
use std::test::Fail;
use taps::Taps;

// A sample whose second number is 0.
fn plain(first: i32) -> Sample {
    Sample { first, second: 0 }
}

// The cost of a sample at a distance from the expected number 0.
fn cost_of_distance(noise: i32, distance: i32) -> Result<Cost, Fail> {
    let mut channel = Taps::blank();
    channel.load(&[0], noise)?;
    Ok(channel.cost(plain(distance), 0))
}

// Eight taps of -512.
fn loudest(noise: i32) -> Result<Taps, Fail> {
    let mut channel = Taps::blank();
    channel.load(&[-512; 8], noise)?;
    Ok(channel)
}

#[test]
fn a_fraction_is_dropped(rt: HostRuntime) -> Result<(), Fail> {
    assert_eq!(rt; cost_of_distance(10, 3)?, Cost::Eighths(7));
    assert_eq!(rt; cost_of_distance(10, -3)?, Cost::Eighths(7));
    assert_eq!(rt; cost_of_distance(1_000_000, 353)?, Cost::Eighths(0));
    assert_eq!(rt; cost_of_distance(1_000_000, 354)?, Cost::Eighths(1));
    Ok(())
}

#[test]
fn a_cost_is_capped(rt: HostRuntime) -> Result<(), Fail> {
    assert_eq!(rt; cost_of_distance(1, 90)?, Cost::Eighths(64_800));
    assert_eq!(rt; cost_of_distance(1, 91)?, Cost::Eighths(65_535));
    assert_eq!(rt; cost_of_distance(1, -2048)?, Cost::Eighths(65_535));
    Ok(())
}

#[test]
fn eight_loud_taps_are_priced(rt: HostRuntime) -> Result<(), Fail> {
    let channel = loudest(1_000_000)?;
    assert_eq!(rt; channel.memory(), 8);
    assert_eq!(rt; channel.cost(plain(2047), 0), Cost::Eighths(33));
    assert_eq!(rt; channel.cost(plain(2047), 255), Cost::Eighths(301));
    assert_eq!(rt; channel.cost(plain(2047), 256), Cost::Barred);
    assert_eq!(rt; loudest(1)?.cost(plain(2047), 255), Cost::Eighths(65_535));
    Ok(())
}

#[test]
fn the_newest_symbol_goes_with_the_first_tap(rt: HostRuntime) -> Result<(), Fail> {
    let mut channel = Taps::blank();
    channel.load(&[100, 10, 1], 8)?;
    assert_eq!(rt; channel.expected(0), -111);
    assert_eq!(rt; channel.expected(1), 89);
    assert_eq!(rt; channel.expected(4), -109);
    assert_eq!(rt; channel.expected(7), 111);
    assert_eq!(rt; channel.cost(plain(-111), 0), Cost::Eighths(0));
    assert_eq!(rt; channel.cost(plain(89), 1), Cost::Eighths(0));
    assert_eq!(rt; channel.cost(plain(-91), 2), Cost::Eighths(0));
    assert_eq!(rt; channel.cost(plain(-109), 4), Cost::Eighths(0));
    Ok(())
}

#[test]
fn only_samples_with_second_number_0_in_range_are_taken(rt: HostRuntime) {
    let channel = Taps::blank();
    assert!(rt; channel.takes(plain(-2048)));
    assert!(rt; channel.takes(plain(2047)));
    assert!(rt; !channel.takes(plain(-2049)));
    assert!(rt; !channel.takes(plain(2048)));
    assert!(rt;
        !channel.takes(Sample {
            first: 0,
            second: 1,
        })
    );
    assert_eq!(rt; channel.cost(plain(2048), 0), Cost::Barred);
    assert_eq!(rt;
        channel.cost(
            Sample {
                first: 0,
                second: -1,
            },
            0,
        ),
        Cost::Barred
    );
}

#[test]
fn a_blank_channel_has_one_tap_0_and_noise_8(rt: HostRuntime) {
    let channel = Taps::blank();
    assert_eq!(rt; channel.taps(), [0].as_slice());
    assert_eq!(rt; channel.noise(), 8);
    assert_eq!(rt; channel.memory(), 1);
    assert_eq!(rt; channel.cost(plain(3), 1), Cost::Eighths(9));
}

// Refuses the load with this number, and leaves the channel.
fn refuses(rt: &impl Abort, taps: &[i16], noise: i32, number: u8) -> Result<(), Fail> {
    let mut channel = loudest(5)?;
    match channel.load(taps, noise) {
        Ok(()) => return Err(Fail::new("loaded")),
        Err(refusal) => assert_eq!(rt; refusal.number(), number),
    }
    assert_eq!(rt; channel.taps(), [-512; 8].as_slice());
    assert_eq!(rt; channel.noise(), 5);
    Ok(())
}

#[test]
fn a_wrong_number_of_taps_is_refused_first(rt: HostRuntime) -> Result<(), Fail> {
    refuses(&rt, &[], 8, 1)?;
    refuses(&rt, &[0; 9], 8, 1)?;
    refuses(&rt, &[512; 9], 0, 1)?;
    refuses(&rt, &[], 0, 1)
}

#[test]
fn a_tap_or_noise_out_of_range_is_refused(rt: HostRuntime) -> Result<(), Fail> {
    refuses(&rt, &[512], 8, 2)?;
    refuses(&rt, &[0, 0, -513], 8, 2)?;
    refuses(&rt, &[i16::MIN], 8, 2)?;
    refuses(&rt, &[0], 0, 2)?;
    refuses(&rt, &[0], -1, 2)?;
    refuses(&rt, &[0], 1_000_001, 2)?;
    refuses(&rt, &[0], i32::MAX, 2)?;
    refuses(&rt, &[0], i32::MIN, 2)
}

#[test]
fn the_widest_load_is_taken(rt: HostRuntime) -> Result<(), Fail> {
    let mut channel = Taps::blank();
    channel.load(&[-512, 511, -512, 511, -512, 511, -512, 511], 1_000_000)?;
    assert_eq!(rt;
        channel.taps(),
        [-512, 511, -512, 511, -512, 511, -512, 511].as_slice()
    );
    assert_eq!(rt; channel.noise(), 1_000_000);
    channel.load(&[3], 1)?;
    assert_eq!(rt; channel.taps(), [3].as_slice());
    assert_eq!(rt; channel.noise(), 1);
    Ok(())
}
