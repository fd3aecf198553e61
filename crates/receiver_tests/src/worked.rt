//! The worked burst: two taps, two places.
use burst::{Place, Priors};
use channel::{Channel, Sample};
use cost::{Cost, Lean};
use receiver::Receiver;
use std::process::Abort;
use std::test::Fail;
use taps::Taps;

// A place with this first sample number and these priors of the values 0 and 1.
fn place(first: i32, zero: u16, one: u16) -> Place {
    Place {
        sample: Sample { first, second: 0 },
        priors: Priors::new([zero, one, 0, 0]),
    }
}

// The burst with its second sample, not settled.
fn burst(second: i32) -> Result<Receiver<Taps>, Fail> {
    let mut channel = Taps::blank();
    channel.load(&[2, 1], 8)?;
    let mut receiver = Receiver::new(channel);
    receiver.add(place(0, 0, 0))?;
    receiver.add(place(second, 5, 0))?;
    Ok(receiver)
}

// The costs of both values at both places.
fn check_costs(rt: &impl Abort, receiver: &Receiver<Taps>, costs: [u32; 4]) -> Result<(), Fail> {
    assert_eq!(rt; receiver.cost(0, 0)?, Cost::Eighths(costs[0]));
    assert_eq!(rt; receiver.cost(0, 1)?, Cost::Eighths(costs[1]));
    assert_eq!(rt; receiver.cost(1, 0)?, Cost::Eighths(costs[2]));
    assert_eq!(rt; receiver.cost(1, 1)?, Cost::Eighths(costs[3]));
    Ok(())
}

#[test]
fn depth_2(rt: HostRuntime) -> Result<(), Fail> {
    let mut receiver = burst(0)?;
    let settled = receiver.settle();
    assert_eq!(rt; settled.columns, 4);
    assert_eq!(rt; settled.best, Some(7));
    check_costs(&rt, &receiver, [10, 7, 7, 10])?;
    assert_eq!(rt; receiver.lean(0, 1)?, Lean::Eighths(3));
    assert_eq!(rt; receiver.lean(1, 1)?, Lean::Eighths(-3));
    Ok(())
}

#[test]
fn depth_1(rt: HostRuntime) -> Result<(), Fail> {
    let mut receiver = burst(0)?;
    receiver.set_depth(1)?;
    assert_eq!(rt; receiver.settle().columns, 4);
    check_costs(&rt, &receiver, [15, 7, 7, 10])?;
    assert_eq!(rt; receiver.symbol(0)?, 1);
    assert_eq!(rt; receiver.symbol(1)?, 0);
    Ok(())
}

#[test]
fn another_second_sample(rt: HostRuntime) -> Result<(), Fail> {
    let mut receiver = burst(1)?;
    let _ = receiver.settle();
    check_costs(&rt, &receiver, [9, 5, 10, 5])?;
    let mut list = [9; 3];
    receiver.shown(&mut list)?;
    assert_eq!(rt; list[0], 1);
    assert_eq!(rt; list[1], 1);
    assert_eq!(rt; list[2], 9);
    Ok(())
}

#[test]
fn settled_again_counts_nothing(rt: HostRuntime) -> Result<(), Fail> {
    let mut receiver = burst(0)?;
    let _ = receiver.settle();
    let again = receiver.settle();
    assert_eq!(rt; again.columns, 0);
    assert_eq!(rt; again.best, Some(7));
    Ok(())
}
