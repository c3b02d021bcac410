// The counters that the counted calls are handed.
ghost use Rattle.std.specs.Prelude.{◌≡◌, ◌+◌};

use crate::Ledger;
use crate::count::Count;
use std::marker::Model;

/// How many probes and scans were made: two numbers that have no greatest value, and the ledger that is told of each step.
/// Only code that was handed the runtime can make one, and it cannot be copied.
#[derive(Drop)]
pub struct Steps<L: Ledger> {
    probes: Count,
    scans: Count,
    ledger: L,
}

impl<L: Ledger> Model for Steps<L> {
    ghost use Rattle.wh_steps.specs.Steps.{Taken};

    ghost Value = { Taken L };

    ghost view = { λ s. record { probes = s.probes; scans = s.scans; ledger = s.ledger } };
}

impl<L: Ledger> Steps<L> {
    /// Begins with 0 and 0.
    pub fn new(_rt: &HostRuntime, ledger: L) -> Self
        ensures { result ≡ record { probes = 0; scans = 0; ledger = ledger } }
    {
        Steps {
            probes: Count::new(),
            scans: Count::new(),
            ledger,
        }
    }

    /// Counts `n` probes, and tells the ledger.
    pub fn probe(&mut self, n: u64)
        ensures { self.new ≡ record { probes = self.old.probes + n; scans = self.old.scans; ledger = L.probed self.old.ledger n } }
    {
        self.probes.add(n);
        self.ledger.probe(n);
    }

    /// Counts one scan, and tells the ledger.
    pub fn scan(&mut self)
        ensures { self.new ≡ record { probes = self.old.probes; scans = self.old.scans + 1; ledger = L.scanned self.old.ledger } }
    {
        self.scans.add(1);
        self.ledger.scan();
    }

    pub fn ledger(&self) -> &L
        ensures { result.now ≡ self.now.ledger }
    {
        &self.ledger
    }
}

#[cfg(test)]
mod tests {
    use super::*;
    use crate::{CountLedger, NoLedger};

    #[test]
    fn a_ledger_is_told(rt: HostRuntime) {
        let mut steps = Steps::new(&rt, CountLedger::new());
        steps.probe(3);
        steps.scan();
        steps.probe(u64::MAX);
        assert_eq!(rt; steps.ledger().probes, u64::MAX);
        assert_eq!(rt; steps.ledger().scans, 1);
        let mut uncounted = Steps::new(&rt, NoLedger);
        uncounted.scan();
    }
}
