//! Why octets were not read on.

use std::alloc::AllocFailed;

/// The first field outside its grammar, by the number of octets that stand from its place on.
#[derive(Clone, Copy, Debug, PartialEq, Eq)]
pub struct Fault(pub usize);

/// Why octets were not read on, where what they say is kept in memory.
#[derive(Clone, Copy, Debug, PartialEq, Eq)]
pub enum Stop {
    /// The first field outside its grammar, by the number of octets that stand from its place on.
    Bad(usize),
    OutOfMemory,
}

impl From<Fault> for Stop {
    ghost from_gives = { λ fault stop. stop ≡ Bad fault.0 };

    ghost use Rattle.std.specs.Prelude.{◌≡◌};
    ghost use Rattle.octet_reading.specs.declared.stop.Stop.TheVariants.{Bad};

    fn from(fault: Fault) -> Self {
        Stop::Bad(fault.0)
    }
}

impl<T: Drop> From<AllocFailed<T>> for Stop {
    ghost from_gives = { λ _ stop. stop ≡ OutOfMemory };

    ghost use Rattle.std.specs.Prelude.{◌≡◌};
    ghost use Rattle.octet_reading.specs.declared.stop.Stop.TheVariants.{OutOfMemory};

    fn from(_: AllocFailed<T>) -> Self {
        Stop::OutOfMemory
    }
}
