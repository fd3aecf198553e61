//! The sweep: the worked burst, lists of every length, places from none to too many, refusals in their order.
use crate::Firsts;
use burst::{Place, Priors, Refusal};
use channel::Sample;
use joining::{Count, LeastCost};
use std::process::Abort;
use std::test::Fail;
use sweep::sweep;
use taps::Taps;

// A place with this first sample number and these priors of the values 0 and 1.
fn place(first: i32, zero: u16, one: u16) -> Place {
    Place {
        sample: Sample { first, second: 0 },
        priors: Priors::new([zero, one, 0, 0]),
    }
}

// The taps 2 and 1, and the noise 8: two histories.
fn echo() -> Result<Taps, Fail> {
    let mut channel = Taps::blank();
    channel.load(&[2, 1], 8)?;
    Ok(channel)
}

// The number of a refusal, or 0.
fn refusal(answer: Result<(), Refusal>) -> u8 {
    match answer {
        Ok(()) => 0,
        Err(refusal) => refusal.number(),
    }
}

// A number of eighths.
fn cost(number: u32) -> LeastCost {
    LeastCost::new(number)
}

#[test]
fn least_costs_of_the_worked_burst_and_the_rest_kept(rt: HostRuntime) -> Result<(), Fail> {
    let none = cost(LeastCost::NONE);
    let places = [place(0, 0, 0), place(0, 5, 0)];
    let mut forward = [cost(3); 7];
    let mut backward = [cost(3); 7];
    let mut answers = [cost(3); 5];
    let answer = sweep(&echo()?, &places, &mut forward, &mut backward, &mut answers);
    assert_eq!(rt; refusal(answer), 0);
    assert_eq!(rt;
        forward,
        [cost(0), none, cost(9), cost(1), cost(7), cost(10), cost(3)]
    );
    assert_eq!(rt;
        backward,
        [
            cost(7),
            cost(2),
            cost(1),
            cost(6),
            cost(0),
            cost(0),
            cost(3),
        ]
    );
    assert_eq!(rt; answers, [cost(10), cost(7), cost(7), cost(10), cost(3)]);
    Ok(())
}

// Sweeps the worked burst over lists too short by these, and sees that they are refused and kept.
fn too_short(rt: &impl Abort, forward: usize, backward: usize, answers: usize) -> Result<(), Fail> {
    let kept = [Count::new(9); 6];
    let mut front = kept;
    let mut back = kept;
    let mut meet = kept;
    let places = [place(0, 0, 0), place(0, 5, 0)];
    assert!(rt; forward <= 6 && backward <= 6 && answers <= 4);
    let answer = sweep(
        &echo()?,
        &places,
        &mut front[0..6 - forward],
        &mut back[0..6 - backward],
        &mut meet[0..4 - answers],
    );
    assert_eq!(rt; refusal(answer), 11);
    assert_eq!(rt; front, kept);
    assert_eq!(rt; back, kept);
    assert_eq!(rt; meet, kept);
    Ok(())
}

#[test]
fn a_list_one_too_short_is_refused(rt: HostRuntime) -> Result<(), Fail> {
    too_short(&rt, 1, 0, 0)?;
    too_short(&rt, 0, 1, 0)?;
    too_short(&rt, 0, 0, 1)?;
    too_short(&rt, 6, 6, 4)
}

#[test]
fn no_places_have_one_column(rt: HostRuntime) -> Result<(), Fail> {
    let mut forward = [Count::new(9); 3];
    let mut backward = [Count::new(9); 3];
    let mut answers = [Count::new(9); 1];
    let answer = sweep(&echo()?, &[], &mut forward, &mut backward, &mut answers);
    assert_eq!(rt; refusal(answer), 0);
    assert_eq!(rt; forward, [Count::new(1), Count::new(0), Count::new(9)]);
    assert_eq!(rt; backward, [Count::new(1), Count::new(1), Count::new(9)]);
    assert_eq!(rt; answers, [Count::new(9)]);
    Ok(())
}

#[test]
fn a_full_burst_is_counted_and_one_more_place_refused(rt: HostRuntime) {
    let channel = Taps::blank();
    let places = [place(0, 0, 0); 129];
    let mut forward = [Count::new(9); 130];
    let mut backward = [Count::new(9); 130];
    let mut answers = [Count::new(9); 258];
    let answer = sweep(&channel, &places, &mut forward, &mut backward, &mut answers);
    assert_eq!(rt; refusal(answer), 3);
    assert_eq!(rt; forward[0], Count::new(9));
    let answer = sweep(
        &channel,
        &places[0..128],
        &mut forward,
        &mut backward,
        &mut answers,
    );
    assert_eq!(rt; refusal(answer), 0);
    assert_eq!(rt; forward[15], Count::new(32_768));
    assert_eq!(rt; forward[128], Count::new(65_535));
    assert_eq!(rt; forward[129], Count::new(9));
    assert_eq!(rt; backward[0], Count::new(65_535));
    assert_eq!(rt; answers[255], Count::new(65_535));
    assert_eq!(rt; answers[256], Count::new(9));
}

// Sweeps places over lists that are too short, and names the refusal.
fn refused(places: &[Place]) -> u8 {
    let mut forward = [Count::new(9); 0];
    let mut backward = [Count::new(9); 0];
    let mut answers = [Count::new(9); 0];
    refusal(sweep(
        &Taps::blank(),
        places,
        &mut forward,
        &mut backward,
        &mut answers,
    ))
}

#[test]
fn the_smallest_number_is_named(rt: HostRuntime) {
    let barred = place(0, Priors::BARRED, Priors::BARRED);
    let far = place(2048, 0, 0);
    assert_eq!(rt; refused(&[barred; 129]), 3);
    assert_eq!(rt; refused(&[far; 129]), 3);
    assert_eq!(rt; refused(&[barred, far]), 4);
    assert_eq!(rt; refused(&[place(0, 0, 0), barred]), 5);
    assert_eq!(rt; refused(&[place(0, 0, 0)]), 11);
}

#[test]
fn worths_follow_in_order(rt: HostRuntime) {
    let odd = Firsts {
        plain: false,
        odd: true,
        even: false,
    };
    let even = Firsts {
        plain: false,
        odd: false,
        even: true,
    };
    // With one tap 0 and the noise 8, a sample of 1 costs 1 and one of 2 costs 4.
    let places = [place(0, 2, 1), place(2, 1, 1), place(1, 2, 2)];
    let mut forward = [odd; 4];
    let mut backward = [odd; 4];
    let mut answers = [odd; 6];
    let answer = sweep(
        &Taps::blank(),
        &places,
        &mut forward,
        &mut backward,
        &mut answers,
    );
    assert_eq!(rt; refusal(answer), 0);
    assert_eq!(rt; backward[1], even);
    assert_eq!(rt; backward[2], odd);
    assert_eq!(rt; answers[0], even);
    assert_eq!(rt; answers[1], odd);
    assert!(rt; answers[5].odd && answers[5].even && !answers[5].plain);
}
