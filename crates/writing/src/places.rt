//! The lines of depths and places.
ghost use Rattle.std.specs.Prelude.{◌≡◌, ◌++◌, ◌≤◌, length, map, take, codes};
ghost use Rattle.forms.specs.Forms.{listed, prior_text};
ghost use Rattle.writing.specs.Drafts.{Room};
ghost use Rattle.writing.specs.Written.{of_depth, of_prior, of_place};
ghost use Rattle.std.proofs.Common.{rules};

use crate::draft::Draft;
use crate::line::Line;
use crate::put::{Put, put_after, put_list};
use burst::{Place, Priors};
use forms::Prior;

/// A depth, as a line.
#[derive(Clone, Copy)]
pub struct DepthLine(pub usize);

/// A place with the priors of the first so many values, as a line.
#[derive(Clone, Copy)]
pub struct PlaceLine<'a> {
    pub place: &'a Place,
    pub values: usize,
}

impl Line for DepthLine {
    ghost form = { λ l. of_depth l.0 };

    ghost most = { 22 };

    ghost short = { Prim.search rules };

    fn opening(&self) -> &[u8] {
        b"(depth "
    }

    fn put_body(&self, draft: &mut Draft) {
        self.0.put(draft);
        draft.put(b")\n");
    }
}

// A prior as it is written.
fn written(number: u16) -> Prior
    ensures { result ≡ of_prior number }
{
    if number == Priors::BARRED {
        Prior::Barred
    } else {
        Prior::Number(i32::from(number))
    }
}

// The four priors as they are written.
fn all_written(priors: Priors) -> [Prior; 4]
    ensures { result ≡ map of_prior priors.numbers }
{
    priors.numbers().map(written)
}

// The priors of the first so many values, to the end of a line.
fn put_priors(draft: &mut Draft, priors: Priors, values: usize)
    requires { Room 60 draft.old }
    ensures text { draft.new ≡ draft.old ++ (codes ") (prior" ++ listed prior_text (map of_prior (take values priors.numbers))) }
    ensures short { length (listed prior_text (map of_prior (take values priors.numbers))) ≤ 51 }
{
    let written = all_written(priors);
    put_list(draft, b") (prior", &written[0..values.min(4)]);
}

impl Line for PlaceLine<'_> {
    ghost form = { λ l. of_place l.values l.place.now };

    ghost most = { 100 };

    ghost short = { Prim.search rules };

    fn opening(&self) -> &[u8] {
        b"(place (sample "
    }

    fn put_body(&self, draft: &mut Draft) {
        let sample = self.place.sample;
        sample.first.put(draft);
        put_after(draft, b" ", &sample.second);
        put_priors(draft, self.place.priors, self.values);
    }
}
