// The questions to a bench, which alter nothing.
ghost use Rattle.std.specs.Prelude.{◌≡◌};
ghost use Rattle.monitor.specs.Agrees.{Agrees as MonitorAgrees};
ghost use Rattle.air.specs.Runs.{monitor_calls};
ghost use Rattle.bench.specs.Ran.{InEveryHistory, ShowsAllChanges, few_at_each, verdict_on};
ghost use Rattle.bench.specs.declared.bench.Verdict.TheVariants.{Covered};

use crate::bench::{Bench, Verdict};
use crate::tally::{Changes, Tally};
use family::family::Family;
use monitor::monitor::Monitor;

impl<N: Family, M: Family, E: Family> Bench<N, M, E> {
    // What was counted.
    pub fn tally(&self) -> Tally
        ensures { result ≡ self.now.tally }
    {
        self.tally
    }

    // The monitor, for its questions.
    pub fn monitor(&self) -> &Monitor<N, M, E>
        ensures { InEveryHistory N.Family.meaning M.Family.meaning E.Family.meaning self.now (λ f st a. MonitorAgrees f (monitor_calls a) result.now) }
    {
        self.link.monitor()
    }

    // Whether the run is one that the promise speaks of, by its counts; then what was newly shown
    // at each place are the texts of its changes, in their order, each change at most once.
    pub fn verdict(&self) -> Verdict
        ensures value { result ≡ verdict_on self.now.tally }
        ensures shows { InEveryHistory N.Family.meaning M.Family.meaning E.Family.meaning self.now (λ f st a. result ≡ Covered → ShowsAllChanges f a) }
    {
        if self.tally.turned_accepted == 0 && self.tally.changes.are_few() {
            Verdict::Covered
        } else {
            Verdict::NotCovered
        }
    }
}

impl Changes {
    // Whether no place had more than three.
    fn are_few(self) -> bool
        ensures { result ≡ few_at_each self }
    {
        self.name <= 3 && self.message <= 3 && self.alert <= 3
    }
}
