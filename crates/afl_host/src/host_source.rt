//! A source over a real stream. It tells no bytes and no name.
ghost use Rattle.std.specs.Prelude.{◌≡◌, ◌<◌, ◌^◌};

use afl_outside::{Failed, Source};
use std::fs::File;
use std::io::Read;
use std::rt::Stdin;

const MOST: u64 = (1 << 63) - 1;

#[derive(Drop)]
enum Stream {
    Standard(Stdin),
    Named(File),
}

#[derive(Drop)]
pub struct HostSource {
    stream: Stream,
    given: u64,
    faults: u64,
    ghost in_range: { given < 2 ^ 63 },
}

impl HostSource {
    ghost use Rattle.afl_host.specs.Host.{host_source_state, untold_source};

    pub fn standard(stream: Stdin) -> Self
        ensures { host_source_state result ≡ untold_source 0 0 }
    {
        HostSource {
            stream: Stream::Standard(stream),
            given: 0,
            faults: 0,
        }
    }

    pub fn named(file: File) -> Self
        ensures { host_source_state result ≡ untold_source 0 0 }
    {
        HostSource {
            stream: Stream::Named(file),
            given: 0,
            faults: 0,
        }
    }
}

impl Source for HostSource {
    ghost use Rattle.afl_host.specs.Host.{host_source_state};

    ghost state = { host_source_state };

    fn read(&mut self, into: &mut [u8]) -> Result<usize, Failed> {
        let read = match &mut self.stream {
            Stream::Standard(stream) => stream.read(into),
            Stream::Named(file) => file.read(into),
        };
        match read {
            Ok(count) if count as u64 <= MOST - self.given => {
                self.given += count as u64;
                Ok(count)
            }
            _ => {
                self.faults = self.faults.saturating_add(1);
                Err(Failed)
            }
        }
    }

    fn faults(&self) -> u64 {
        self.faults
    }
}
