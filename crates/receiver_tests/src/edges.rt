//! Depths, full and empty bursts, and bursts without a best.
use burst::{Place, Priors, Refusal};
use channel::{Channel, Sample};
use cost::{Cost, Lean};
use receiver::Receiver;
use std::test::Fail;
use taps::Taps;

const BARRED: u16 = 65_535;

fn place(first: i32, second: i32, priors: [u16; 4]) -> Place {
    Place {
        sample: Sample { first, second },
        priors: Priors::new(priors),
    }
}

fn plain() -> Place {
    place(0, 0, [0; 4])
}

fn eight_taps() -> Result<Receiver<Taps>, Fail> {
    let mut channel = Taps::blank();
    channel.load(&[1, 2, 3, 4, 5, 6, 7, 8], 100)?;
    Ok(Receiver::new(channel))
}

#[test]
fn eight_taps_allow_depth_5(rt: HostRuntime) -> Result<(), Fail> {
    let mut receiver = eight_taps()?;
    assert_eq!(rt; receiver.depth(), 5);
    assert_eq!(rt; receiver.set_depth(6), Err(Refusal::BadDepth));
    assert_eq!(rt; receiver.set_depth(0), Err(Refusal::BadDepth));
    assert_eq!(rt; receiver.depth(), 5);
    receiver.set_depth(1)?;
    receiver.set_depth(5)?;
    assert_eq!(rt; receiver.depth(), 5);
    Ok(())
}

#[test]
fn the_128th_place_fits(rt: HostRuntime) -> Result<(), Fail> {
    let mut receiver = eight_taps()?;
    for _ in 0..128 {
        receiver.add(plain())?;
    }
    assert_eq!(rt; receiver.add(plain()), Err(Refusal::TooMany));
    assert_eq!(rt; receiver.add(place(0, 1, [1; 4])), Err(Refusal::TooMany));
    assert_eq!(rt; receiver.places().len(), 128);
    assert_eq!(rt; receiver.settle().columns, 256);
    assert_eq!(rt; receiver.settle().columns, 0);
    Ok(())
}

#[test]
fn bad_places_are_refused_and_change_nothing(rt: HostRuntime) -> Result<(), Fail> {
    let mut receiver = eight_taps()?;
    assert_eq!(rt;
        receiver.add(place(2048, 0, [1; 4])),
        Err(Refusal::NotTaken)
    );
    assert_eq!(rt; receiver.add(place(0, 1, [0; 4])), Err(Refusal::NotTaken));
    assert_eq!(rt;
        receiver.add(place(0, 0, [0, 0, 1, 0])),
        Err(Refusal::BadPriors)
    );
    assert_eq!(rt;
        receiver.add(place(0, 0, [BARRED, BARRED, 0, 0])),
        Err(Refusal::BadPriors)
    );
    assert_eq!(rt; receiver.places().len(), 0);
    Ok(())
}

#[test]
fn an_empty_burst(rt: HostRuntime) -> Result<(), Fail> {
    let mut receiver = eight_taps()?;
    let settled = receiver.settle();
    assert_eq!(rt; settled.columns, 0);
    assert_eq!(rt; settled.best, Some(0));
    assert_eq!(rt; receiver.cost(0, 0), Err(Refusal::NoPlace));
    assert_eq!(rt; receiver.symbol(0), Err(Refusal::NoPlace));
    assert_eq!(rt; receiver.shown(&mut []), Ok(()));
    Ok(())
}

#[test]
fn stale_columns_are_not_read(rt: HostRuntime) -> Result<(), Fail> {
    let mut receiver = eight_taps()?;
    receiver.add(plain())?;
    assert_eq!(rt; receiver.cost(0, 1), Err(Refusal::Stale));
    assert_eq!(rt; receiver.cost(0, 2), Err(Refusal::NoValue));
    assert_eq!(rt; receiver.cost(1, 2), Err(Refusal::NoPlace));
    assert_eq!(rt; receiver.lean(0, 1), Err(Refusal::Stale));
    assert_eq!(rt; receiver.symbol(0), Err(Refusal::Stale));
    assert_eq!(rt; receiver.shown(&mut []), Err(Refusal::Stale));
    let _ = receiver.settle();
    assert_eq!(rt; receiver.shown(&mut []), Err(Refusal::TooShort));
    Ok(())
}

#[test]
fn one_value_alone_is_sure_or_never(rt: HostRuntime) -> Result<(), Fail> {
    let mut receiver = eight_taps()?;
    receiver.add(place(0, 0, [BARRED, 0, 0, 0]))?;
    receiver.add(place(0, 0, [0, BARRED, 0, 0]))?;
    let _ = receiver.settle();
    assert_eq!(rt; receiver.cost(0, 0)?, Cost::Barred);
    assert_eq!(rt; receiver.lean(0, 1)?, Lean::Sure);
    assert_eq!(rt; receiver.lean(1, 1)?, Lean::Never);
    assert_eq!(rt; receiver.lean(1, 0)?, Lean::Eighths(0));
    assert_eq!(rt; receiver.lean(0, 0)?, Lean::Neither);
    Ok(())
}
