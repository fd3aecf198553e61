//! Settles a small burst, received through an echo of two taps, and prints what is read of it.
#![tactic(auto)]

use anyhow::anyhow;
use burst::{Place, Priors, Refusal};
use channel::{Channel, Sample};
use receiver::Receiver;
use report::{Burst, Costs, Leans, Read};
use taps::Taps;

// What a call answers; a refusal ends the program.
fn answered<T>(answer: Result<T, Refusal>) -> anyhow::Result<T> {
    answer.map_err(|_| anyhow!("a call was refused"))
}

// A place that heard 0, with the priors of the values 0 and 1.
fn place(zero: u16, one: u16) -> Place {
    Place {
        sample: Sample {
            first: 0,
            second: 0,
        },
        priors: Priors::new([zero, one, 0, 0]),
    }
}

// What is printed of a place.
fn read(receiver: &Receiver<Taps>, at: usize) -> anyhow::Result<Read> {
    let zero = answered(receiver.cost(at, 0))?;
    let one = answered(receiver.cost(at, 1))?;
    Ok(Read {
        at,
        shown: answered(receiver.symbol(at))?,
        costs: Costs::Two(zero, one),
        leans: Leans::Two(answered(receiver.lean(at, 1))?),
    })
}

// Settles the burst and prints it.
fn tell(rt: &HostRuntime, receiver: &mut Receiver<Taps>) -> anyhow::Result<()> {
    let settled = receiver.settle();
    let places = receiver.places().len();
    let burst = Burst {
        places,
        best: settled.best,
        columns: settled.columns,
    };
    println!(rt; "{burst}")?;
    for at in 0..places {
        let line = read(receiver, at)?;
        println!(rt; "{line}")?;
    }
    Ok(())
}

fn run(rt: &HostRuntime) -> anyhow::Result<()> {
    let mut channel = Taps::blank();
    channel
        .load(&[2, 1], 8)
        .map_err(|_| anyhow!("the taps were refused"))?;
    let mut receiver = Receiver::new(channel);
    answered(receiver.add(place(0, 0)))?;
    answered(receiver.add(place(5, 0)))?;
    tell(rt, &mut receiver)
}

fn main(rt: HostRuntime) -> anyhow::Result<()> {
    run(&rt)
}
