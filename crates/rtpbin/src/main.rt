//! `rtpbin`: the receiving half of an RTP bin, over captures.
#![tactic(auto)]

use live_cli::run_live;
use live_run::Open;
use rtp_io::{HostFiles, HostSink, Stream};
use rtp_units::OutOfMemory;
use rtpbin_cli::{Status, run_tool};
use std::env;
use std::io::ErrorKind;
use std::process::ExitCode;
use std::sync::Wait;
use std::thread::Threads;

fn main(rt: HostRuntime) -> ExitCode {
    match run(&rt, &rt) {
        Ok(status) => ExitCode::from(status as u8),
        Err(OutOfMemory) => ExitCode::from(Status::Memory as u8),
    }
}

// `threads` is the same runtime, with the leave to start threads.
fn run<R: Threads + Wait + Sync>(rt: &HostRuntime, threads: &R) -> Result<Status, OutOfMemory> {
    let alloc = rt.alloc();
    let words = words(rt)?;
    let mut files = HostFiles::new(rt);
    let mut out = HostSink::new(alloc, rt, Stream::Output)?;
    let mut err = HostSink::new(alloc, rt, Stream::Errors)?;
    let status = if is_live(&words) {
        run_live(
            threads, alloc, &words, &mut files, &mut out, &mut err, &Open,
        )
    } else {
        run_tool(alloc, &words, &mut files, &mut out, &mut err)
    };
    // Lines that are still gathered are written now. After a failed write that is no news.
    if status != Status::Write && out.flush().is_err() {
        return Ok(Status::Write);
    }
    Ok(status)
}

/// The words behind the program's name. Where one is no text there are none: they have no form then.
fn words(rt: &HostRuntime) -> Result<Vec<String>, OutOfMemory> {
    let mut words = Vec::new(rt.alloc());
    match env::args(rt) {
        Ok(args) => {
            for word in args.skip(1) {
                words.push(word)?;
            }
        }
        Err(error) if error.kind() == ErrorKind::OutOfMemory => return Err(OutOfMemory),
        Err(_) => {}
    }
    Ok(words)
}

// Whether the words are for `live`, whose lanes run beside each other.
fn is_live(words: &[String]) -> bool {
    match words {
        [command, ..] => command.as_str() == "live",
        [] => false,
    }
}
