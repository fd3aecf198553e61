//! Works receivers through calls, and sees that new ones that are given what stands cannot be told from them.
#![tactic(auto)]

ghost use Rattle.rework.specs.Worked.{Reworked};

use burst::{Place, Priors, Refusal};
use channel::Sample;
use receiver::Settled;
use runs::{Answer, Call, Heard, compare};
use taps::Taps;

// A sample of the taps kind.
fn sample(first: i32) -> Sample {
    Sample { first, second: 0 }
}

// A place whose sample is (0, 0). What comes of the two places of the worked bursts follows from the definitions.
fn silent(priors: [u16; 4]) -> Place
    ensures { Reworked }
{
    Place {
        sample: sample(0),
        priors: Priors::new(priors),
    }
}

// Prints what settling told.
fn tell(rt: &HostRuntime, name: &str, told: Settled) -> anyhow::Result<()> {
    let columns = told.columns;
    match told.best {
        Some(best) => println!(rt; "{name}: best {best}, {columns} columns")?,
        None => println!(rt; "{name}: no best, {columns} columns")?,
    }
    Ok(())
}

// Prints what a call is answered.
fn say(rt: &HostRuntime, reply: Result<Answer, Refusal>) -> anyhow::Result<()> {
    match reply {
        Ok(answer) => say_answer(rt, answer),
        Err(refusal) => {
            let number = refusal.number();
            println!(rt; "  refused with {number}")?;
            Ok(())
        }
    }
}

// Prints an answer.
fn say_answer(rt: &HostRuntime, answer: Answer) -> anyhow::Result<()> {
    match answer {
        Answer::Done => println!(rt; "  done")?,
        Answer::Settled(told) => tell(rt, "  settled", told)?,
        Answer::Cost(cost) => println!(rt; "  cost {cost}")?,
        Answer::Lean(lean) => println!(rt; "  lean {lean}")?,
        Answer::Symbol(symbol) => println!(rt; "  symbol {symbol}")?,
        Answer::Marks(marks) => {
            let forward = marks.forward;
            let backward = marks.backward;
            println!(rt; "  marks {forward} and {backward}")?
        }
    }
    Ok(())
}

// Compares a receiver that is worked through calls with a new one, and prints what both tell.
fn show(rt: &HostRuntime, channel: Taps, calls: &[Call], further: &[Call]) -> anyhow::Result<()> {
    let unheard = Heard {
        one: Ok(Answer::Done),
        other: Ok(Answer::Done),
    };
    let mut heard = [unheard; 16];
    let mut bytes = [9; 4];
    let mut other_bytes = [9; 4];
    let told = compare(
        channel,
        channel,
        calls,
        further,
        &mut bytes,
        &mut other_bytes,
        &mut heard,
    );
    tell(rt, "worked", told.worked)?;
    tell(rt, "new", told.renewed)?;
    for pair in heard.iter().take(told.heard) {
        say(rt, pair.one)?;
    }
    let agree = heard
        .iter()
        .take(told.heard)
        .all(|pair| pair.one == pair.other);
    let asked = told.heard;
    println!(rt; "  equal answers to {asked} further calls: {agree}")?;
    print!(rt; "  bytes")?;
    for (byte, other) in bytes.iter().zip(other_bytes.iter()) {
        print!(rt; " {byte} and {other}")?;
    }
    println!(rt)?;
    Ok(())
}

// Many calls, refused ones among them, on the two places of the worked bursts and others.
fn many(first: Call, second: Call) -> [Call; 17] {
    [
        Call::Cut(1),
        Call::Retake(0, sample(0)),
        first,
        second,
        Call::Symbol(0),
        Call::Settle,
        Call::Shown,
        Call::Reweigh(1, Priors::new([0, 3, 0, 0])),
        second,
        Call::Depth(9),
        Call::Depth(1),
        Call::Settle,
        Call::Cut(1),
        Call::Depth(2),
        Call::Settle,
        Call::Retake(1, sample(1)),
        Call::Reweigh(5, Priors::new([0, 0, 0, 0])),
    ]
}

// What is asked afterwards.
fn after_many() -> [Call; 12] {
    [
        Call::Marks,
        Call::Lean(0, 1),
        Call::Symbol(1),
        Call::Cost(0, 2),
        Call::Cost(2, 0),
        Call::Shown,
        Call::Retake(0, sample(4)),
        Call::Cost(0, 0),
        Call::Settle,
        Call::Lean(0, 1),
        Call::Cut(2),
        Call::Settle,
    ]
}

// The costs of both places, and the shown symbols.
fn readings() -> [Call; 5] {
    [
        Call::Cost(0, 0),
        Call::Cost(0, 1),
        Call::Cost(1, 0),
        Call::Cost(1, 1),
        Call::Shown,
    ]
}

fn run(rt: &HostRuntime) -> anyhow::Result<()> {
    let mut channel = Taps::blank();
    let _ = channel.load(&[2, 1], 8);
    let first = Call::Add(silent([0, 0, 0, 0]));
    let second = Call::Add(silent([5, 0, 0, 0]));
    println!(rt; "settled, then place 1 retaken as (1, 0)")?;
    let later = [first, second, Call::Settle, Call::Retake(1, sample(1))];
    show(rt, channel, &later, &readings())?;
    println!(rt; "settled, then place 0 retaken as it is")?;
    let again = Call::Retake(0, sample(0));
    show(
        rt,
        channel,
        &[first, second, Call::Settle, again],
        &readings(),
    )?;
    println!(rt; "the same at depth 1")?;
    let shallow = [first, second, Call::Depth(1), Call::Settle, again];
    show(rt, channel, &shallow, &readings())?;
    println!(rt; "many calls, refused ones among them")?;
    show(rt, channel, &many(first, second), &after_many())?;
    Ok(())
}

fn main(rt: HostRuntime) -> anyhow::Result<()> {
    run(&rt)
}
