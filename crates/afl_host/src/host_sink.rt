//! A sink over a real stream. It tells no bytes and no name.
ghost use Rattle.std.specs.Prelude.{◌≡◌};

use afl_outside::{Failed, Sink};
use std::fs::File;
use std::io::Write;
use std::rt::Stdout;

#[derive(Drop)]
enum Stream {
    Standard(Stdout),
    Named(File),
}

#[derive(Drop)]
pub struct HostSink {
    stream: Stream,
    faults: u64,
}

impl HostSink {
    ghost use Rattle.afl_host.specs.Host.{host_sink_state, untold_sink};

    pub fn standard(stream: Stdout) -> Self
        ensures { host_sink_state result ≡ untold_sink 0 }
    {
        HostSink {
            stream: Stream::Standard(stream),
            faults: 0,
        }
    }

    pub fn named(file: File) -> Self
        ensures { host_sink_state result ≡ untold_sink 0 }
    {
        HostSink {
            stream: Stream::Named(file),
            faults: 0,
        }
    }
}

impl Sink for HostSink {
    ghost use Rattle.afl_host.specs.Host.{host_sink_state};

    ghost state = { host_sink_state };

    fn write(&mut self, bytes: &[u8]) -> Result<usize, Failed> {
        let written = match &mut self.stream {
            Stream::Standard(stream) => stream.write(bytes),
            Stream::Named(file) => file.write(bytes),
        };
        match written {
            Ok(count) if 0 < count || bytes.is_empty() => Ok(count),
            _ => {
                self.faults = self.faults.saturating_add(1);
                Err(Failed)
            }
        }
    }

    fn faults(&self) -> u64 {
        self.faults
    }

    fn wants(&self) -> u64 {
        0
    }
}
