//! Pinning: one record changes, refusals in their order.
use burst::{Place, Priors, Refusal};
use channel::Sample;
use sweep::pin;
use taps::Taps;

// A place with these priors.
fn place(priors: [u16; 4]) -> Place {
    Place {
        sample: Sample {
            first: 3,
            second: -4,
        },
        priors: Priors::new(priors),
    }
}

// The number of a refusal, or 0.
fn refusal(answer: Result<(), Refusal>) -> u8 {
    match answer {
        Ok(()) => 0,
        Err(refusal) => refusal.number(),
    }
}

#[test]
fn one_record_is_pinned(rt: HostRuntime) {
    let mut places = [place([1, 2, 0, 0]); 3];
    assert_eq!(rt; refusal(pin::<Taps>(&mut places, 1, 1)), 0);
    assert_eq!(rt; places[0].priors.numbers(), [1, 2, 0, 0]);
    assert_eq!(rt; places[1].priors.numbers(), [65_535, 2, 0, 0]);
    assert_eq!(rt; places[2].priors.numbers(), [1, 2, 0, 0]);
    assert_eq!(rt; places[1].sample.first, 3);
    assert_eq!(rt; places[1].sample.second, -4);
    assert_eq!(rt; refusal(pin::<Taps>(&mut places, 1, 1)), 0);
    assert_eq!(rt; refusal(pin::<Taps>(&mut places, 1, 0)), 5);
}

#[test]
fn the_smallest_number_is_named(rt: HostRuntime) {
    let mut places = [place([1, 2, 3, 0]), place([1, 65_535, 0, 0])];
    assert_eq!(rt; refusal(pin::<Taps>(&mut places, 0, 1)), 5);
    assert_eq!(rt; refusal(pin::<Taps>(&mut places, 0, 2)), 5);
    assert_eq!(rt; refusal(pin::<Taps>(&mut places, 1, 1)), 5);
    assert_eq!(rt; refusal(pin::<Taps>(&mut places, 1, 2)), 8);
    assert_eq!(rt; refusal(pin::<Taps>(&mut places, 2, 2)), 6);
    assert_eq!(rt; refusal(pin::<Taps>(&mut places, 2, 0)), 6);
    assert_eq!(rt; places[0].priors.numbers(), [1, 2, 3, 0]);
    assert_eq!(rt; places[1].priors.numbers(), [1, 65_535, 0, 0]);
}
