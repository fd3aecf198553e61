//! Many calls, one after the other.
ghost use Rattle.std.specs.Prelude.{◌≡◌, [], ◌∷◌, map};
ghost use Rattle.receiver.specs.Standing.{standing};
ghost use Rattle.runs.specs.Obeying.{Ran};
ghost use Rattle.runs.specs.Runs.{given};
ghost use Rattle.runs.specs.declared.call.Call.TheVariants as calls;

use crate::call::Call;
use crate::obey::obey;
use burst::Place;
use channel::Channel;
use receiver::Receiver;

// Gives a receiver a call, whatever it answers.
fn ask<C: Channel>(receiver: &mut Receiver<C>, call: Call)
    ensures channel { receiver.new.channel ≡ receiver.old.channel }
    ensures ran { Ran (C.meaning receiver.old.channel) (call ∷ []) receiver.old.burst receiver.new.burst }
{
    let mut unread = [0; 128];
    let _ = obey(receiver, call, &mut unread);
}

// Gives a receiver all of the calls, whatever it answers.
pub(crate) fn run<C: Channel>(receiver: &mut Receiver<C>, list: &[Call])
    ensures channel { receiver.new.channel ≡ receiver.old.channel }
    ensures ran { Ran (C.meaning receiver.old.channel) list.now receiver.old.burst receiver.new.burst }
{
    for call in list {
        ask(receiver, *call);
    }
}

// Appends place after place.
fn add_all<C: Channel>(receiver: &mut Receiver<C>, places: &[Place])
    ensures channel { receiver.new.channel ≡ receiver.old.channel }
    ensures ran { Ran (C.meaning receiver.old.channel) (map calls.Add places.now) receiver.old.burst receiver.new.burst }
{
    for place in places {
        ask(receiver, Call::Add(*place));
    }
}

// A new receiver that is given the depth and the places that stand in another.
pub(crate) fn renewed<C: Channel, D: Channel>(from: &Receiver<C>, channel: D) -> Receiver<D>
    ensures channel { result.channel ≡ channel }
    ensures stands { standing result.burst ≡ given (D.meaning channel) (standing from.now.burst) }
{
    let mut receiver = Receiver::new(channel);
    ask(&mut receiver, Call::Depth(from.depth()));
    add_all(&mut receiver, from.places());
    receiver
}
