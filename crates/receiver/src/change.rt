//! Making a burst, and the calls that change what stands in it.
ghost use Rattle.std.specs.Prelude.{◌≡◌, ◌<◌, true, []};
ghost use Rattle.recursions.specs.Depths.{depth_allowed};
ghost use Rattle.columns.specs.Shapes.{Shapes};
ghost use Rattle.receiver.specs.Bursts.{Kept};
ghost use Rattle.channel.specs.Meaning.{Meaning};
ghost use Rattle.receiver.specs.Changes.{Added, Deepened};
ghost use Rattle.receiver.specs.Sound.{Fits, Sound};
ghost use Rattle.receiver.specs.Standing.{standing};

use crate::inner::{Burst, Marks};
use burst::{Place, Priors};
use channel::Sample;
use columns::{Column, Shape};

impl Burst {
    // No places, at a depth with its shape. The first column of each direction is written.
    pub(crate) fn new(depth: usize, shape: Shape) -> Burst
        ensures stands { standing result ≡ record { depth = depth; places = []; forward = 0; backward = 0 } }
        ensures kept { Kept result }
        ensures sound { (m : Meaning) → depth_allowed m depth ≡ true → Shapes m depth shape → Sound m result }
    {
        let unused = Place {
            sample: Sample {
                first: 0,
                second: 0,
            },
            priors: Priors::new([0; 4]),
        };
        Burst {
            places: [unused; 128],
            count: 0,
            depth,
            shape,
            forward: [Column::start(); 129],
            backward: [[0; 16]; 129],
            marks: Marks {
                forward: 0,
                backward: 0,
            },
        }
    }

    // Appends a place. The last backward column is written, and no other is fresh.
    pub(crate) fn add(&mut self, place: Place)
        requires room { self.old.count < 128 }
        requires kept { Kept self.old }
        ensures added { Added self.old self.new place }
        ensures kept { Kept self.new }
        ensures sound { (m : Meaning) → Fits m place → Sound m self.old → Sound m self.new }
    {
        self.places[self.count] = place;
        self.count += 1;
        self.backward[self.count] = [0; 16];
        self.marks.backward = self.count;
    }

    // Sets the depth and its shape. The first forward and the last backward column are written, and no other is fresh.
    pub(crate) fn deepen(&mut self, depth: usize, shape: Shape)
        requires { Kept self.old }
        ensures deepened { Deepened self.old self.new depth }
        ensures shape { self.new.shape ≡ shape }
        ensures kept { Kept self.new }
        ensures sound { (m : Meaning) → depth_allowed m depth ≡ true → Shapes m depth shape → Sound m self.old → Sound m self.new }
    {
        self.depth = depth;
        self.shape = shape;
        self.forward[0] = Column::start();
        self.backward[self.count] = [0; 16];
        self.marks = Marks {
            forward: 0,
            backward: self.count,
        };
    }
}
