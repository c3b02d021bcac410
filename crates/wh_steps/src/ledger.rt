// What is told of each step.
ghost use Rattle.std.specs.Prelude.{◌≡◌, ℕ, ◌+◌, ◌-◌, ◌^◌, min};

/// It is told of each probe and each scan.
pub trait Ledger {
    /// The ledger after it was told of so many probes.
    ghost probed: { Self → ℕ → Self };

    /// The ledger after it was told of a scan.
    ghost scanned: { Self → Self };

    fn probe(&mut self, n: u64)
        ensures { self.new ≡ probed self.old n };

    fn scan(&mut self)
        ensures { self.new ≡ scanned self.old };
}

/// Keeps nothing.
#[derive(Clone, Copy, Debug, PartialEq, Eq)]
pub struct NoLedger;

impl Ledger for NoLedger {
    ghost probed = { λ l n. l };

    ghost scanned = { λ l. l };

    fn probe(&mut self, _n: u64) {}

    fn scan(&mut self) {}
}

/// Adds up what it is told. Each number stops at its greatest value.
#[derive(Clone, Copy, Debug, PartialEq, Eq)]
pub struct CountLedger {
    pub probes: u64,
    pub scans: u64,
}

impl CountLedger {
    pub fn new() -> Self
        ensures { result ≡ record { probes = 0; scans = 0 } }
    {
        CountLedger {
            probes: 0,
            scans: 0,
        }
    }
}

impl Ledger for CountLedger {
    ghost probed = { λ l n. record { probes = min (l.probes + n) (2 ^ 64 - 1); scans = l.scans } };

    ghost scanned = { λ l. record { probes = l.probes; scans = min (l.scans + 1) (2 ^ 64 - 1) } };

    fn probe(&mut self, n: u64) {
        self.probes = self.probes.saturating_add(n);
    }

    fn scan(&mut self) {
        self.scans = self.scans.saturating_add(1);
    }
}
