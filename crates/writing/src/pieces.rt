//! Numbers, entries and priors as they are written.
ghost use Rattle.std.specs.Prelude.{decimal};
ghost use Rattle.std.specs.Fmt.{signed_decimal};
ghost use Rattle.forms.specs.Forms.{entry_text, prior_text};

use crate::draft::Draft;
use crate::put::{Put, put_after, put_number};
use forms::Prior;
use table::Entry;

// One impl for each type of number: one for every `Integer` would leave no room for priors and entries.
impl Put for usize {
    ghost text = { decimal };

    ghost most = { 20 };

    fn put(&self, draft: &mut Draft) {
        put_number(draft, *self);
    }
}

impl Put for u32 {
    ghost text = { decimal };

    ghost most = { 10 };

    fn put(&self, draft: &mut Draft) {
        put_number(draft, *self);
    }
}

impl Put for i32 {
    ghost text = { signed_decimal };

    ghost most = { 11 };

    fn put(&self, draft: &mut Draft) {
        put_number(draft, *self);
    }
}

impl Put for i16 {
    ghost text = { signed_decimal };

    ghost most = { 6 };

    fn put(&self, draft: &mut Draft) {
        put_number(draft, *self);
    }
}

impl Put for Prior {
    ghost text = { prior_text };

    ghost most = { 11 };

    fn put(&self, draft: &mut Draft) {
        match self {
            Prior::Number(number) => number.put(draft),
            Prior::Barred => draft.put(b"barred"),
        }
    }
}

impl Put for Entry {
    ghost text = { entry_text };

    ghost most = { 25 };

    fn put(&self, draft: &mut Draft) {
        match self {
            Entry::Barred => draft.put(b"barred"),
            Entry::Expected { first, second } => {
                put_after(draft, b"(", first);
                put_after(draft, b" ", second);
                draft.put(b")");
            }
        }
    }
}
