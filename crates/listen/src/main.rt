//! Prices a small burst under an echo of two taps, and shows that a refused load changes nothing.
#![tactic(auto)]

use channel::{Channel, Sample};
use cost::Cost;
use taps::Taps;

// The last sample has a second number other than 0, which taps do not take.
const BURST: [Sample; 4] = [
    Sample {
        first: 0,
        second: 0,
    },
    Sample {
        first: 1,
        second: 0,
    },
    Sample {
        first: -3,
        second: 0,
    },
    Sample {
        first: 1,
        second: 1,
    },
];

// The windows of two taps: the newest symbol, plus twice the one before it.
const WINDOWS: usize = 4;

// Loads the channel, and prints what was asked and what then stands.
fn load(rt: &HostRuntime, channel: &mut Taps, asked: &[i16], noise: i32) -> anyhow::Result<()> {
    match channel.load(asked, noise) {
        Ok(()) => println!(rt; "load taps {asked:?} noise {noise}: loaded")?,
        Err(refusal) => {
            let number = refusal.number();
            println!(rt; "load taps {asked:?} noise {noise}: refused with {number}")?
        }
    }
    let held = channel.taps();
    let stands = channel.noise();
    println!(rt; "taps {held:?} noise {stands} stand")?;
    Ok(())
}

// The cost of each sample under each window.
fn price<C: Channel>(rt: &HostRuntime, channel: &C, burst: &[Sample]) -> anyhow::Result<Vec<Cost>> {
    let mut costs = Vec::new(rt.alloc());
    for sample in burst {
        for window in 0..WINDOWS {
            costs.push(channel.cost(*sample, window))?;
        }
    }
    Ok(costs)
}

// Prints the cost of each sample under each window.
fn show(rt: &HostRuntime, burst: &[Sample], costs: &[Cost]) -> anyhow::Result<()> {
    for (sample, row) in burst.iter().zip(costs.chunks(WINDOWS)) {
        let first = sample.first;
        let second = sample.second;
        for (window, cost) in row.iter().enumerate() {
            println!(rt; "sample {first} {second} window {window}: {cost}")?;
        }
    }
    Ok(())
}

fn run(rt: &HostRuntime) -> anyhow::Result<()> {
    let mut channel = Taps::blank();
    load(rt, &mut channel, &[2, 1], 8)?;
    let before = price(rt, &channel, &BURST)?;
    show(rt, &BURST, &before)?;
    load(rt, &mut channel, &[2, 512], 8)?;
    let after = price(rt, &channel, &BURST)?;
    let answer = if before == after {
        "as before"
    } else {
        "otherwise"
    };
    println!(rt; "the channel answers {answer}")?;
    Ok(())
}

fn main(rt: HostRuntime) -> anyhow::Result<()> {
    run(&rt)
}
