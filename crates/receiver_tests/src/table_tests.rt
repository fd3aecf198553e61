//! The table kind: four symbols at depth 1, 2 and 3, and a burst without a best.
use burst::{Place, Priors, Refusal};
use channel::{Channel, Sample};
use cost::Cost;
use receiver::Receiver;
use std::test::Fail;
use table::{Entry, Table};

// A memory of three symbols; whatever they are, the sample (0, 0) is expected.
fn silent() -> Result<Table, Fail> {
    let entry = Entry::Expected {
        first: 0,
        second: 0,
    };
    let mut channel = Table::blank();
    channel.load(3, &[entry; 64], 8)?;
    Ok(channel)
}

// A place that only its priors speak of.
fn known(priors: [u16; 4]) -> Place {
    Place {
        sample: Sample {
            first: 0,
            second: 0,
        },
        priors: Priors::new(priors),
    }
}

#[test]
fn depths_1_to_3_follow_the_priors(rt: HostRuntime) -> Result<(), Fail> {
    let mut receiver = Receiver::new(silent()?);
    assert_eq!(rt; receiver.depth(), 3);
    receiver.add(known([3, 1, 0, 2]))?;
    receiver.add(known([5, 2, 7, 9]))?;
    receiver.add(known([0, 1, 2, 65_535]))?;
    for depth in 1..4 {
        receiver.set_depth(depth)?;
        let settled = receiver.settle();
        assert_eq!(rt; settled.columns, 6);
        assert_eq!(rt; settled.best, Some(2));
        assert_eq!(rt; receiver.cost(0, 0)?, Cost::Eighths(5));
        assert_eq!(rt; receiver.cost(1, 3)?, Cost::Eighths(9));
        assert_eq!(rt; receiver.cost(2, 3)?, Cost::Barred);
        assert_eq!(rt; receiver.symbol(0)?, 2);
        assert_eq!(rt; receiver.symbol(1)?, 1);
        assert_eq!(rt; receiver.symbol(2)?, 0);
    }
    assert_eq!(rt; receiver.cost(0, 4), Err(Refusal::NoValue));
    Ok(())
}

#[test]
fn all_windows_barred_is_dead(rt: HostRuntime) -> Result<(), Fail> {
    let mut channel = Table::blank();
    channel.load(1, &[Entry::Barred; 4], 8)?;
    let mut receiver = Receiver::new(channel);
    receiver.add(known([0; 4]))?;
    let settled = receiver.settle();
    assert_eq!(rt; settled.columns, 2);
    assert_eq!(rt; settled.best, None);
    assert_eq!(rt; receiver.cost(0, 3)?, Cost::Barred);
    assert_eq!(rt; receiver.symbol(0), Err(Refusal::NoBest));
    assert_eq!(rt; receiver.shown(&mut []), Err(Refusal::NoBest));
    Ok(())
}
