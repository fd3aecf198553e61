//! The admitted joining.
ghost use Rattle.std.specs.Prelude.{◌≡◌};
ghost use Rattle.joining.specs.Admitting.{admitted, admitted_operations, admitted_worth};
ghost use Rattle.joining.specs.AdmittingLemmas.{admitted_laws};
ghost use Rattle.std.proofs.Common.{rules};

use crate::{Admitted, Joining};
use cost::Cost;

impl Admitted {
    /// Yes or no.
    pub fn new(yes: bool) -> Admitted
        ensures { result ≡ admitted «yes» }
    {
        Admitted { yes }
    }

    /// Whether it is yes.
    pub fn is_yes(self) -> bool
        ensures { result ≡ self.yes }
    {
        self.yes
    }
}

impl Joining for Admitted {
    ghost operations = { admitted_operations };

    ghost worth_of = { admitted_worth };

    ghost laws = { admitted_laws };

    ghost barred = { Prim.search rules };

    fn none() -> Admitted {
        Admitted { yes: false }
    }

    fn unit() -> Admitted {
        Admitted { yes: true }
    }

    fn join(self, other: Admitted) -> Admitted {
        Admitted {
            yes: self.yes || other.yes,
        }
    }

    fn follow(self, next: Admitted) -> Admitted {
        Admitted {
            yes: self.yes && next.yes,
        }
    }

    fn worth(cost: Cost) -> Admitted {
        Admitted {
            yes: !cost.is_barred(),
        }
    }
}
