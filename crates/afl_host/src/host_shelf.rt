//! The files of the system.
ghost use Rattle.std.specs.Prelude.{◌≡◌, None};

use crate::host_disk::HostDisk;
use crate::host_sink::HostSink;
use crate::host_source::HostSource;
use afl_outside::{Failed, Shelf};
use std::fs;
use std::fs::OpenOptions;

#[derive(Drop)]
pub struct HostShelf {
    rt: HostRuntime,
    faults: u64,
    handed: u64,
}

impl HostShelf {
    ghost use Rattle.afl_host.specs.Host.{host_shelf_state, untold_shelf};

    pub fn new(rt: HostRuntime) -> Self
        ensures { host_shelf_state result ≡ untold_shelf 0 0 }
    {
        HostShelf {
            rt,
            faults: 0,
            handed: 0,
        }
    }
}

impl Shelf for HostShelf {
    type S = HostSource;

    type K = HostSink;

    type Device = HostDisk;

    ghost use Rattle.afl_host.specs.Host.{host_shelf_state};

    ghost state = { host_shelf_state };

    fn script(&mut self, name: &str) -> Result<HostSource, Failed> {
        if name == "-" {
            return Ok(HostSource::standard(self.rt.stdin()));
        }
        match fs::open(&self.rt, name) {
            Ok(file) => Ok(HostSource::named(file)),
            Err(_) => {
                self.faults = self.faults.saturating_add(1);
                Err(Failed)
            }
        }
    }

    fn reply(&mut self, name: &str) -> Result<HostSink, Failed> {
        if name == "-" {
            self.handed = self.handed.saturating_add(1);
            return Ok(HostSink::standard(self.rt.stdout()));
        }
        match fs::create(&self.rt, name) {
            Ok(file) => {
                self.handed = self.handed.saturating_add(1);
                Ok(HostSink::named(file))
            }
            Err(_) => {
                self.faults = self.faults.saturating_add(1);
                Err(Failed)
            }
        }
    }

    fn device(&mut self, name: &str) -> Result<HostDisk, Failed> {
        match OpenOptions::new()
            .read(true)
            .write(true)
            .create(true)
            .open(&self.rt, name)
        {
            Ok(file) => {
                self.handed = self.handed.saturating_add(1);
                Ok(HostDisk::new(file))
            }
            Err(_) => {
                self.faults = self.faults.saturating_add(1);
                Err(Failed)
            }
        }
    }

    fn wants(&self) -> u64 {
        0
    }

    fn faults(&self) -> u64 {
        self.faults
    }
}
