//! Adding the places of a text to a receiver.
ghost use Rattle.std.specs.Prelude.{◌≡◌, ℕ, ◌<◌, ◌≤◌, length, OnOk};
ghost use Rattle.forms.specs.Lines.{priors_in};
ghost use Rattle.reading.specs.Lines.{At, AtLine};
ghost use Rattle.reading.specs.Received.{state_of, StaysBegun, AddsPlace};

use crate::heads::repeated;
use crate::place::place_of;
use channel::Channel;
use forms::{Line, PlaceLine, read_line};
use kinds::Spelled;
use receiver::Receiver;
use text::{Cause, Fault, Malformed};

// The place that a line says, added.
fn add_place<C: Spelled>(receiver: &mut Receiver<C>, place: &PlaceLine) -> Result<(), Cause>
    requires { length (priors_in place.now) ≤ 4 }
    ensures does { (n : ℕ) → AddsPlace C.Spelled.rule C.Spelled.form n place.now receiver.old receiver.new result }
    ensures begun { OnOk result (StaysBegun receiver.old receiver.new) }
{
    if place.priors().len() != C::alphabet() {
        return Err(Cause::Text(Malformed::NotAForm));
    }
    receiver.add(place_of(place))?;
    Ok(())
}

// The place of a line, added where both heads stand.
fn add_said<C: Spelled>(receiver: &mut Receiver<C>, line: &[u8]) -> Result<(), Cause>
    requires { 0 < length line.now }
    ensures does { (n : ℕ) → At C.Spelled.rule n (state_of C.Spelled.form receiver.old) line.now (λ _. state_of C.Spelled.form receiver.new) result }
    ensures begun { OnOk result (StaysBegun receiver.old receiver.new) }
{
    let line = read_line(line)?;
    match line {
        Line::Place(place) => add_place(receiver, &place),
        Line::Depth(_) => Err(Cause::Text(Malformed::Heads)),
        _ => Err(repeated::<C>(&line)),
    }
}

/// The same, with the number of the line in a fault.
pub(crate) fn add_line<C: Spelled>(
    receiver: &mut Receiver<C>,
    line: &[u8],
    number: usize,
) -> Result<(), Fault>
    requires { 0 < length line.now }
    ensures does { AtLine C.Spelled.rule number (state_of C.Spelled.form receiver.old) line.now (λ _. state_of C.Spelled.form receiver.new) result }
    ensures begun { OnOk result (StaysBegun receiver.old receiver.new) }
{
    add_said(receiver, line).map_err(|cause| cause.at(number))
}
