//! Prices a sample by each kind of channel, and shows that a refused load changes nothing.
#![tactic(auto)]

use channel::{Channel, Refusal, Sample};
use code::Code;
use table::{Entry, Table};
use taps::Taps;

const SAMPLE: Sample = Sample {
    first: 4,
    second: -6,
};

// Taps take only samples whose second number is 0.
const PLAIN: Sample = Sample {
    first: 4,
    second: 0,
};

const ENTRIES: [Entry; 4] = [
    Entry::Expected {
        first: 10,
        second: 0,
    },
    Entry::Expected {
        first: 0,
        second: 10,
    },
    Entry::Expected {
        first: -10,
        second: 0,
    },
    Entry::Barred,
];

// Prints what became of a load.
fn tell(rt: &HostRuntime, asked: &str, answer: Result<(), Refusal>) -> anyhow::Result<()> {
    match answer {
        Ok(()) => println!(rt; "load {asked}: loaded")?,
        Err(refusal) => {
            let number = refusal.number();
            println!(rt; "load {asked}: refused with {number}")?
        }
    }
    Ok(())
}

// Prints the cost of a sample under a window.
fn price<C: Channel>(
    rt: &HostRuntime,
    channel: &C,
    sample: Sample,
    window: usize,
) -> anyhow::Result<()> {
    let first = sample.first;
    let second = sample.second;
    let cost = channel.cost(sample, window);
    println!(rt; "sample {first} {second} window {window}: {cost}")?;
    Ok(())
}

fn price_by_taps(rt: &HostRuntime) -> anyhow::Result<()> {
    let mut channel = Taps::blank();
    tell(rt, "taps 2 1 noise 8", channel.load(&[2, 1], 8))?;
    price(rt, &channel, PLAIN, 1)?;
    price(rt, &channel, SAMPLE, 1)
}

// Prints what a table holds.
fn show_table(rt: &HostRuntime, channel: &Table) -> anyhow::Result<()> {
    let memory = channel.memory();
    let noise = channel.noise();
    println!(rt; "a table of memory {memory} noise {noise} stands")?;
    for (window, entry) in channel.entries().iter().enumerate() {
        match entry {
            Entry::Barred => println!(rt; "window {window} is barred")?,
            Entry::Expected { first, second } => {
                println!(rt; "window {window} expects {first} {second}")?
            }
        }
    }
    Ok(())
}

fn price_by_table(rt: &HostRuntime) -> anyhow::Result<()> {
    let mut channel = Table::blank();
    tell(rt, "table", channel.load(1, &ENTRIES, 8))?;
    price(rt, &channel, SAMPLE, 1)?;
    price(rt, &channel, SAMPLE, 3)?;
    tell(rt, "table of memory 2", channel.load(2, &ENTRIES, 8))?;
    tell(rt, "table of noise 0", channel.load(1, &ENTRIES, 0))?;
    show_table(rt, &channel)?;
    price(rt, &channel, SAMPLE, 1)
}

// Prints what a code holds.
fn show_code(rt: &HostRuntime, channel: &Code) -> anyhow::Result<()> {
    let memory = channel.memory();
    let first = channel.first_mask();
    let second = channel.second_mask();
    println!(rt; "a code of memory {memory} masks {first} {second} stands")?;
    Ok(())
}

fn price_by_code(rt: &HostRuntime) -> anyhow::Result<()> {
    let mut channel = Code::blank();
    tell(rt, "code 3 masks 7 5", channel.load(3, 7, 5))?;
    price(rt, &channel, SAMPLE, 3)?;
    tell(rt, "code 9 masks 7 5", channel.load(9, 7, 5))?;
    tell(rt, "code 2 masks 3 4", channel.load(2, 3, 4))?;
    show_code(rt, &channel)?;
    price(rt, &channel, SAMPLE, 3)
}

fn run(rt: &HostRuntime) -> anyhow::Result<()> {
    price_by_taps(rt)?;
    price_by_table(rt)?;
    price_by_code(rt)
}

fn main(rt: HostRuntime) -> anyhow::Result<()> {
    run(&rt)
}
