//! The real files and streams, the trusted edge. They tell nothing of their bytes.
ghost use Rattle.std.specs.Prelude.{◌≡◌, ◌<◌, ◌-◌, ◌^◌, IfOk, true, false, [], None};
ghost use Rattle.rtp_io.specs.Outside.{HasCause};

use crate::outside::{Failed, Files, Sink};
use rtp_units::OutOfMemory;
use std::alloc::Global;
use std::fs::File;
use std::io::{BufWriter, IsTerminal, Read, Stderr, Stdin, Stdout, Write};

/// How many bytes of output are gathered before they are written.
const OUTPUT_BYTES: usize = 65_536;

#[derive(Drop)]
enum Source {
    Closed,
    Input(Stdin),
    File(File),
}

/// Files of the system. The name `-` is standard input.
#[derive(Drop)]
pub struct HostFiles<'a> {
    rt: &'a HostRuntime,
    source: Source,
    faults: u64,
}

impl<'a> HostFiles<'a> {
    /// No file is open.
    pub fn new(rt: &'a HostRuntime) -> HostFiles<'a>
        ensures { result.faults ≡ 0 }
    {
        HostFiles {
            rt,
            source: Source::Closed,
            faults: 0,
        }
    }
}

impl Files for HostFiles<'_> {
    ghost disk = { λ _. record
        { told = false; may_open = λ _. true; contents = λ _. []; opened = None; left = [] } };

    ghost faults = { λ files. files.faults };

    fn open_file(&mut self, name: &str) -> Result<(), Failed> {
        self.source = Source::Closed;
        if name == "-" {
            self.source = Source::Input(self.rt.stdin());
            return Ok(());
        }
        match File::open(self.rt, name) {
            Ok(file) => {
                self.source = Source::File(file);
                Ok(())
            }
            Err(_) => {
                self.faults += 1;
                Err(Failed)
            }
        }
    }

    fn read(&mut self, buf: &mut [u8]) -> Result<usize, Failed> {
        let answer = match &mut self.source {
            Source::Closed => Ok(0),
            Source::Input(input) => input.read(buf),
            Source::File(file) => file.read(buf),
        };
        match answer {
            Ok(n) => Ok(n),
            Err(_) => {
                self.faults += 1;
                Err(Failed)
            }
        }
    }
}

/// Which stream of the process a sink writes to.
#[derive(Clone, Copy, Debug, PartialEq, Eq)]
pub enum Stream {
    /// Standard output. Its bytes are gathered, and written many lines at a time; on a terminal each
    /// piece is written at once, so that an error text stands behind the lines before it.
    Output,
    /// Standard error. Its bytes are written at once.
    Errors,
}

#[derive(Drop)]
enum Target {
    Output(BufWriter<Stdout>),
    Errors(Stderr),
}

/// Standard output or standard error. Whoever writes to it calls `flush` at the end: until then the last
/// bytes of the output may not be written. A write that takes nothing of a piece counts as a fault.
#[derive(Drop)]
pub struct HostSink {
    target: Target,
    faults: u64,
}

impl HostSink {
    /// Makes room for the bytes that are gathered, so the one of standard error takes no memory.
    pub fn new(alloc: Global, rt: &HostRuntime, stream: Stream) -> Result<HostSink, OutOfMemory>
        ensures { IfOk result (λ sink. sink.faults ≡ 0) }
    {
        let target = match stream {
            Stream::Output => Target::Output(gathered(alloc, rt.stdout())?),
            Stream::Errors => Target::Errors(rt.stderr()),
        };
        Ok(HostSink { target, faults: 0 })
    }

    /// Writes what was gathered. A failure is counted, and the bytes that weren't written are kept.
    pub fn flush(&mut self) -> Result<(), Failed>
        requires countable { self.old.faults < 2 ^ 64 - 1 }
        ensures cause { HasCause self.old.faults self.new.faults result }
    {
        let answer = match &mut self.target {
            Target::Output(output) => output.flush(),
            Target::Errors(errors) => errors.flush(),
        };
        match answer {
            Ok(()) => Ok(()),
            Err(_) => {
                self.faults += 1;
                Err(Failed)
            }
        }
    }
}

fn gathered(alloc: Global, output: Stdout) -> Result<BufWriter<Stdout>, OutOfMemory> {
    let room = if output.is_terminal() {
        0
    } else {
        OUTPUT_BYTES
    };
    match BufWriter::with_capacity(alloc, room, output) {
        Ok(writer) => Ok(writer),
        Err(_) => Err(OutOfMemory),
    }
}

impl Sink for HostSink {
    ghost written = { λ _. None };

    ghost faults = { λ sink. sink.faults };

    fn write(&mut self, piece: &[u8]) -> Result<usize, Failed> {
        let answer = match &mut self.target {
            Target::Output(output) => output.write(piece),
            Target::Errors(errors) => errors.write(piece),
        };
        match answer {
            Ok(0) | Err(_) => {
                self.faults += 1;
                Err(Failed)
            }
            Ok(n) => Ok(n),
        }
    }
}
