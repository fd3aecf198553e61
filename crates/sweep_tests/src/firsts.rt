//! A joining whose follow is not commutative: which costs come first on some way.
ghost use Rattle.std.specs.Prelude.{◌≡◌};
ghost use Rattle.sweep_tests.specs.Firsts.{some, firsts_operations, firsts_worth};
ghost use Rattle.sweep_tests.specs.Identities.{firsts_laws};
ghost use Rattle.std.proofs.Common.{rules};

use cost::Cost;
use joining::Joining;

/// Which costs come first on some way, leaving out costs of 0: none at all, an odd one, an even one.
#[derive(Clone, Copy, PartialEq, Eq, Debug)]
pub struct Firsts {
    pub plain: bool,
    pub odd: bool,
    pub even: bool,
}

impl Firsts {
    // Whether there is a way.
    fn some(self) -> bool
        ensures { result ≡ some self }
    {
        self.plain || self.odd || self.even
    }
}

impl Joining for Firsts {
    ghost operations = { firsts_operations };

    ghost worth_of = { firsts_worth };

    ghost laws = { firsts_laws };

    ghost barred = { Prim.search rules };

    fn none() -> Firsts {
        Firsts {
            plain: false,
            odd: false,
            even: false,
        }
    }

    fn unit() -> Firsts {
        Firsts {
            plain: true,
            odd: false,
            even: false,
        }
    }

    fn join(self, other: Firsts) -> Firsts {
        Firsts {
            plain: self.plain || other.plain,
            odd: self.odd || other.odd,
            even: self.even || other.even,
        }
    }

    fn follow(self, next: Firsts) -> Firsts {
        Firsts {
            plain: self.plain && next.plain,
            odd: self.odd && next.some() || self.plain && next.odd,
            even: self.even && next.some() || self.plain && next.even,
        }
    }

    fn worth(cost: Cost) -> Firsts {
        match cost {
            Cost::Eighths(0) => Firsts::unit(),
            Cost::Eighths(n) => Firsts {
                plain: false,
                odd: n % 2 == 1,
                even: n % 2 == 0,
            },
            Cost::Barred => Firsts::none(),
        }
    }
}
