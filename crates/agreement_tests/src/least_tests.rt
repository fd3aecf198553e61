//! The worked burst at full depth and at a smaller one, a barred prior, and lists too short.
use agreement::least_totals;
use burst::{Place, Priors, Refusal};
use channel::{Channel, Sample};
use cost::Cost;
use joining::LeastCost;
use receiver::Receiver;
use std::test::Fail;
use taps::Taps;

// A receiver of the taps 2 and 1 and the noise 8, with two places whose samples are (0, 0): the priors 0 and 0, then 5 and `last`.
fn worked(last: u16) -> Result<Receiver<Taps>, Fail> {
    let mut channel = Taps::blank();
    channel.load(&[2, 1], 8)?;
    let mut receiver = Receiver::new(channel);
    let sample = Sample {
        first: 0,
        second: 0,
    };
    receiver.add(Place {
        sample,
        priors: Priors::new([0, 0, 0, 0]),
    })?;
    receiver.add(Place {
        sample,
        priors: Priors::new([5, last, 0, 0]),
    })?;
    Ok(receiver)
}

// The least totals of a burst of two places, by place and value.
fn totals(receiver: &Receiver<Taps>) -> Result<[LeastCost; 4], Fail> {
    let nothing = LeastCost::new(0);
    let mut forward = [nothing; 6];
    let mut backward = [nothing; 6];
    let mut answers = [nothing; 4];
    least_totals(receiver, &mut forward, &mut backward, &mut answers)?;
    Ok(answers)
}

// The cost of a value at a place as an element.
fn cost(receiver: &Receiver<Taps>, place: usize, value: usize) -> Result<LeastCost, Fail> {
    match receiver.cost(place, value)? {
        Cost::Eighths(number) => Ok(LeastCost::new(number)),
        Cost::Barred => Ok(LeastCost::new(LeastCost::NONE)),
    }
}

// The costs of both values at both places.
fn costs(receiver: &Receiver<Taps>) -> Result<[LeastCost; 4], Fail> {
    Ok([
        cost(receiver, 0, 0)?,
        cost(receiver, 0, 1)?,
        cost(receiver, 1, 0)?,
        cost(receiver, 1, 1)?,
    ])
}

// Elements of these numbers.
fn elements(numbers: [u32; 4]) -> [LeastCost; 4] {
    [
        LeastCost::new(numbers[0]),
        LeastCost::new(numbers[1]),
        LeastCost::new(numbers[2]),
        LeastCost::new(numbers[3]),
    ]
}

#[test]
fn costs_at_full_depth_are_least_totals(rt: HostRuntime) -> Result<(), Fail> {
    let mut receiver = worked(0)?;
    receiver.set_depth(2)?;
    let _ = receiver.settle();
    assert_eq!(rt; totals(&receiver)?, elements([10, 7, 7, 10]));
    assert_eq!(rt; costs(&receiver)?, elements([10, 7, 7, 10]));
    Ok(())
}

#[test]
fn least_totals_stay_at_a_smaller_depth(rt: HostRuntime) -> Result<(), Fail> {
    let mut receiver = worked(0)?;
    receiver.set_depth(1)?;
    let _ = receiver.settle();
    assert_eq!(rt; totals(&receiver)?, elements([10, 7, 7, 10]));
    assert_eq!(rt; costs(&receiver)?, elements([15, 7, 7, 10]));
    Ok(())
}

#[test]
fn a_barred_value_has_no_total(rt: HostRuntime) -> Result<(), Fail> {
    let mut receiver = worked(Priors::BARRED)?;
    let _ = receiver.settle();
    assert_eq!(rt; totals(&receiver)?, elements([23, 7, 7, LeastCost::NONE]));
    assert_eq!(rt; costs(&receiver)?, totals(&receiver)?);
    Ok(())
}

#[test]
fn an_unsettled_receiver_is_swept_and_a_list_too_short_is_refused(
    rt: HostRuntime,
) -> Result<(), Fail> {
    let receiver = worked(0)?;
    assert_eq!(rt; totals(&receiver)?, elements([10, 7, 7, 10]));
    let kept = [LeastCost::new(3); 6];
    let mut forward = kept;
    let mut backward = kept;
    let mut answers = [LeastCost::new(3); 3];
    match least_totals(&receiver, &mut forward, &mut backward, &mut answers) {
        Ok(()) => assert!(rt; false),
        Err(refusal) => assert_eq!(rt; refusal.number(), 11),
    }
    assert_eq!(rt; forward, kept);
    assert_eq!(rt; backward, kept);
    assert_eq!(rt; answers, [LeastCost::new(3); 3]);
    Ok(())
}
