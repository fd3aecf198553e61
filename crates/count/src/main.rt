//! Counts the sequences of a small burst by the symbol at each place, before and after a place is pinned.
#![tactic(auto)]

ghost use Rattle.count.specs.Worked.{CountsWorked};

use burst::{Place, Priors};
use channel::{Channel, Sample};
use joining::Count;
use sweep::{pin, sweep};
use taps::Taps;

// A place whose sample is (0, 0).
fn silent(priors: [u16; 4]) -> Place {
    Place {
        sample: Sample {
            first: 0,
            second: 0,
        },
        priors: Priors::new(priors),
    }
}

// Prints for each place how many sequences have 0 there, and how many 1.
fn show<C: Channel>(rt: &HostRuntime, channel: &C, places: &[Place; 2]) -> anyhow::Result<()> {
    let nothing = Count::new(0);
    let mut forward = [nothing; 6];
    let mut backward = [nothing; 6];
    let mut answers = [nothing; 4];
    match sweep(channel, places, &mut forward, &mut backward, &mut answers) {
        Ok(()) => {
            for (place, row) in answers.chunks(2).enumerate() {
                print!(rt; "place {place}:")?;
                for count in row {
                    let number = count.number();
                    print!(rt; " {number}")?;
                }
                println!(rt)?;
            }
        }
        Err(refusal) => {
            let number = refusal.number();
            println!(rt; "refused with {number}")?
        }
    }
    Ok(())
}

// The worked burst, whose counts follow from the definitions.
fn worked() -> [Place; 2]
    ensures { CountsWorked }
{
    [silent([0, 0, 0, 0]), silent([5, 0, 0, 0])]
}

fn run(rt: &HostRuntime) -> anyhow::Result<()> {
    let mut channel = Taps::blank();
    let _ = channel.load(&[2, 1], 8);
    let mut places = worked();
    println!(rt; "all sequences, by the symbol at each place")?;
    show(rt, &channel, &places)?;
    let _ = pin::<Taps>(&mut places, 0, 1);
    println!(rt; "those with 1 at place 0")?;
    show(rt, &channel, &places)?;
    Ok(())
}

fn main(rt: HostRuntime) -> anyhow::Result<()> {
    run(&rt)
}
