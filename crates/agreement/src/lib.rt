//! Where the two halves of the product meet: the least totals of a receiver's burst by a sweep of all its sequences, which at full depth are its costs.
#![tactic(auto)]

ghost use Rattle.std.specs.Prelude.{◌≡◌, ℕ, length, OnOk};
ghost use Rattle.burst.specs.Refusals.{refused_by};
ghost use Rattle.receiver.specs.Bursts.{places_of};
ghost use Rattle.agreement.specs.Refusals.{AllFit, room_refusal};
ghost use Rattle.agreement.specs.Swept.{Swept};
ghost use Rattle.agreement.specs.Totals.{LeastTotals, ValueCosts};

use burst::{Place, Refusal};
use channel::Channel;
use joining::LeastCost;
use receiver::Receiver;
use sweep::sweep;

// Sweeps places over a channel under the least-cost joining.
fn sweep_costs<C: Channel>(
    channel: &C,
    places: &[Place],
    forward: &mut [LeastCost],
    backward: &mut [LeastCost],
    answers: &mut [LeastCost],
) -> Result<(), Refusal>
    ensures swept { Swept (C.meaning channel.now) places.now result forward.old forward.new backward.old backward.new answers.old answers.new }
    ensures room { AllFit (C.meaning channel.now) places.now → refused_by result ≡ room_refusal (C.meaning channel.now) (length places.now) (length forward.old) (length backward.old) (length answers.old) }
    ensures least { OnOk result (LeastTotals (C.meaning channel.now) places.now answers.new) }
    ensures costs { (q : ℕ) → q ≡ (C.meaning channel.now).memory → OnOk result (ValueCosts (C.meaning channel.now) q places.now answers.new) }
{
    sweep(channel, places, forward, backward, answers)
}

// The places of a receiver, which all fit.
fn places_of<C: Channel>(receiver: &Receiver<C>) -> &[Place]
    ensures places { result.now ≡ places_of receiver.now.burst }
    ensures fit { AllFit (C.meaning receiver.now.channel) result.now }
{
    receiver.places()
}

/// Fills three lists by a sweep of a receiver's places over its channel under the least-cost joining.
///
/// With M symbols, the answer at k·M + a is the least total of all sequences with the value a at place k, and the greatest number exactly if none of them is
/// admitted. At full depth it is the receiver's cost of a at k. The sweep looks at no column, so the receiver need not be settled. A receiver's
/// places all fit: the call is refused only where a list is too short. Elements past those written keep their contents, and a refused call writes none.
pub fn least_totals<C: Channel>(
    receiver: &Receiver<C>,
    forward: &mut [LeastCost],
    backward: &mut [LeastCost],
    answers: &mut [LeastCost],
) -> Result<(), Refusal>
    ensures swept { Swept (C.meaning receiver.now.channel) (places_of receiver.now.burst) result forward.old forward.new backward.old backward.new answers.old answers.new }
    ensures room { refused_by result ≡ room_refusal (C.meaning receiver.now.channel) (length (places_of receiver.now.burst)) (length forward.old) (length backward.old) (length answers.old) }
    ensures least { OnOk result (LeastTotals (C.meaning receiver.now.channel) (places_of receiver.now.burst) answers.new) }
    ensures costs { receiver.now.burst.depth ≡ (C.meaning receiver.now.channel).memory → OnOk result (ValueCosts (C.meaning receiver.now.channel) receiver.now.burst.depth (places_of receiver.now.burst) answers.new) }
{
    let places = places_of(receiver);
    sweep_costs(receiver.channel(), places, forward, backward, answers)
}
