//! The place that a line says.
ghost use Rattle.std.specs.Prelude.{◌≡◌, ◌≤◌, true, false, [], ◌∷◌, length, MatchOption};
ghost use Rattle.forms.specs.Lines.{priors_in};
ghost use Rattle.reading.specs.Places.{prior_fits, number_of_prior, written, all_fit, priors_of, Hands};

use burst::{Place, Priors};
use forms::{PlaceLine, Prior};

// The number of a written prior, if it fits.
fn prior_number(prior: Prior) -> Option<u16>
    ensures { MatchOption result (prior_fits prior ≡ false) (λ n. (prior_fits prior ≡ true) × (n ≡ number_of_prior prior)) }
{
    match prior {
        Prior::Barred => Some(Priors::BARRED),
        Prior::Number(number @ 0..=65_534) => Some(number as u16),
        Prior::Number(_) => None,
    }
}

// The number of the prior of a value, 0 if none is written for it, if it fits.
fn number_at(priors: &[Prior], value: usize) -> Option<u16>
    ensures { MatchOption result (prior_fits (written priors.now value) ≡ false) (λ n. (prior_fits (written priors.now value) ≡ true) × (n ≡ number_of_prior (written priors.now value))) }
{
    match priors.get(value) {
        Some(prior) => prior_number(*prior),
        None => Some(0),
    }
}

// The priors of four values, those past the written ones 0, if all fit.
fn written_priors(priors: &[Prior]) -> Option<Priors>
    requires { length priors.now ≤ 4 }
    ensures { MatchOption result (all_fit priors.now ≡ false) (λ p. (all_fit priors.now ≡ true) × (p ≡ priors_of priors.now)) }
{
    Some(Priors::new([
        number_at(priors, 0)?,
        number_at(priors, 1)?,
        number_at(priors, 2)?,
        number_at(priors, 3)?,
    ]))
}

// Priors that break the rule of priors for any number of symbol values: all four are barred.
fn broken_priors() -> Priors
    ensures { result.numbers ≡ 65535 ∷ (65535 ∷ (65535 ∷ (65535 ∷ []))) }
{
    Priors::new([Priors::BARRED; 4])
}

// The priors to be handed on.
fn handed_priors(priors: &[Prior]) -> Priors
    requires { length priors.now ≤ 4 }
    ensures { Hands priors.now result }
{
    written_priors(priors).unwrap_or(broken_priors())
}

/// The place that a line says, to be added. A written prior that does not fit breaks the rule of priors.
pub(crate) fn place_of(line: &PlaceLine) -> Place
    requires { length (priors_in line.now) ≤ 4 }
    ensures sample { result.sample ≡ line.now.sample }
    ensures priors { Hands (priors_in line.now) result.priors }
{
    Place {
        sample: line.sample,
        priors: handed_priors(line.priors()),
    }
}
