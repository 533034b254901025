//! A configuration written as a snapshot, and read from one.

ghost use Rattle.std.specs.Prelude.{◌≡◌, ◌≤◌, IfOk, length};
ghost use Rattle.check_commands.specs.Configs.{Config as Configuration};
ghost use Rattle.config_reading.specs.Reading.{IsOfSound};
ghost use Rattle.r53_state.specs.Snapshots.{ComesBack, GivesSnapshot};
ghost use Rattle.r53_state.specs.States.{config_in};
ghost use Rattle.config_reading.specs.Octets.{snapshot};

use crate::config::Config;
use config_reading::{SnapshotFault, one_configuration, read_config, sound_have_snapshots};
use octets::OutOfMemory;
use snapshot_writing::write_snapshot;
use std::alloc::Global;

impl Config {
    /// The snapshot of the configuration, in the version that is written.
    pub fn snapshot(&self, alloc: Global) -> Result<Vec<u8>, OutOfMemory>
        ensures spelled { IfOk result (λ octets. octets.items ≡ snapshot (config_in self.now)) }
        ensures own { IfOk result (λ octets. IsOfSound octets.items (config_in self.now)) }
        ensures short { IfOk result (λ octets. length octets.items ≤ 268435435) }
    {
        sound_have_snapshots();
        self.well_formed();
        write_snapshot(alloc, self.zones(), self.checks(), self.next_zone())
    }

    /// The configuration of which octets are a snapshot, in any version.
    ///
    /// They are Bad exactly where they are outside the grammar of snapshots, or what they say isn't
    /// sound. Memory may be wanted at any point.
    pub fn from_snapshot(alloc: Global, octets: &[u8]) -> Result<Config, SnapshotFault>
        ensures reads { GivesSnapshot octets.now result }
        ensures comes_back { (config : Configuration) → IsOfSound octets.now config
            → ComesBack config result }
    {
        one_configuration();
        let (zones, checks, next_zone) = match read_config(alloc, octets) {
            Ok(read) => read,
            Err(fault) => return Err(fault),
        };
        match Config::restore(alloc, zones, checks, next_zone) {
            Ok(config) => Ok(config),
            Err(_) => Err(SnapshotFault::OutOfMemory),
        }
    }
}
