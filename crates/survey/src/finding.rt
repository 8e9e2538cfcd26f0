ghost use Rattle.std.specs.Prelude.{◌≡◌};

use devices::device::DeviceFault;
use rules::rule::Rule;

// What was being read when a device refused.
#[derive(Clone, Copy, PartialEq, Eq, Debug)]
pub enum Reading {
    Descriptor,
    Directory,
    Map,
    // any other sector, for its goodness alone
    Sector,
}

// What ends a survey with no pass: a rule that is broken at a sector, or a sector that must be good and is not.
#[derive(Clone, Copy, PartialEq, Eq, Debug)]
pub enum Finding {
    Broken {
        rule: Rule,
        sector: usize,
    },
    Unread {
        reading: Reading,
        fault: DeviceFault,
    },
}

impl Finding {
    // A rule that is broken at a sector.
    pub(crate) fn broken(rule: Rule, sector: usize) -> Finding
        ensures { result ≡ Finding.Broken rule sector }
    {
        Finding::Broken { rule, sector }
    }
}
