//! How the requests that were seen of a connection go with the calls that its server has made.

ghost use Rattle.std.specs.Prelude.{◌≡◌, ◌≢◌, true};
ghost use Rattle.spec_service.specs.declared.sighting.Sighting.TheVariants.{End};
ghost use Rattle.persistent_exchange.specs.declared.standing.Standing.TheVariants.{Due, Even, Lost, Whole};

use crate::scout::Sighting;

/// How many more requests of a connection have ended than its server has been called for.
#[derive(Clone, Copy, Debug, PartialEq, Eq)]
pub(crate) enum Standing {
    /// None: each was answered.
    Even,
    /// One, whose content was not taken out.
    Whole,
    /// One, whose content was taken out.
    Due,
    /// It is not known any more.
    Lost,
}

impl Standing {
    /// Returns how they go once more has come.
    pub(crate) fn with_more(self) -> Standing
        ensures kept { result ≢ Lost → result ≡ self }
        ensures not_whole { result ≢ Whole }
    {
        match self {
            Standing::Whole => Standing::Lost,
            other => other,
        }
    }

    /// Returns how they go once this was seen.
    pub(crate) fn with_sighting(self, sighting: Sighting) -> Standing
        ensures whole { result ≡ Whole → (self ≡ Even) × (sighting ≡ End) }
        ensures even { result ≡ Even → (self ≡ Even) × (sighting ≢ End) }
        ensures due { result ≡ Due → (self ≡ Due) × (sighting ≢ End) }
    {
        match (self, sighting) {
            (Standing::Even, Sighting::End) => Standing::Whole,
            (Standing::Whole, _) | (Standing::Due, Sighting::End) => Standing::Lost,
            (other, _) => other,
        }
    }

    /// Returns how they go once an answer was passed on, which was given to a call, or to none.
    pub(crate) fn with_answer(self, is_given: bool) -> Standing
        ensures even { result ≡ Even → (self ≡ Due) × (is_given ≡ true) }
        ensures not_whole { result ≢ Whole }
        ensures not_due { result ≢ Due }
    {
        match (self, is_given) {
            (Standing::Due, true) => Standing::Even,
            _ => Standing::Lost,
        }
    }
}
