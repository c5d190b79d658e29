// The questions to a place, which alter nothing.
ghost use Rattle.std.specs.Prelude.{◌≡◌};
ghost use Rattle.airing.specs.Calls.{on_air};
ghost use Rattle.airing.specs.Due.{current_due, sequence_of};
ghost use Rattle.airing.specs.Agrees.{InEveryHistory};

use crate::place::Place;
use family::family::Family;

impl<F: Family> Place<F> {
    // The family, for a caller that asks about a record before it stores it.
    pub fn family(&self) -> &F
        ensures { result.now ≡ self.now.family }
    {
        &self.family
    }

    // Whether a record is on air.
    pub fn is_on_air(&self) -> bool
        ensures { InEveryHistory F.Family.meaning self.now (λ s h. result ≡ on_air h) }
    {
        self.current.is_some_and(|current| current.on_air)
    }

    // The sequence number of the record accepted last, on air or not.
    pub fn sequence_number(&self) -> Option<u8>
        ensures { InEveryHistory F.Family.meaning self.now (λ s h. result ≡ sequence_of (current_due F.Family.meaning s h)) }
    {
        self.current.map(|current| current.sequence)
    }
}
