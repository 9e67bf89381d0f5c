//! `rtpscan`: what a capture holds, and a first script for it.
#![tactic(auto)]

use rtp_io::{HostFiles, HostSink, Stream};
use rtp_units::OutOfMemory;
use rtpscan_cli::{Status, run_scan};
use std::env;
use std::process::ExitCode;

fn main(rt: HostRuntime) -> ExitCode {
    match run(&rt) {
        Ok(status) => ExitCode::from(status as u8),
        Err(OutOfMemory) => ExitCode::from(Status::Memory as u8),
    }
}

fn run(rt: &HostRuntime) -> Result<Status, OutOfMemory> {
    let alloc = rt.alloc();
    let mut words = Vec::new(alloc);
    // A word that is no text is a word of no form.
    if let Ok(args) = env::args(rt) {
        for word in args.skip(1) {
            words.push(word)?;
        }
    }
    let mut files = HostFiles::new(rt);
    let mut out = HostSink::new(alloc, rt, Stream::Output)?;
    let mut err = HostSink::new(alloc, rt, Stream::Errors)?;
    let status = run_scan(alloc, &words, &mut files, &mut out, &mut err);
    // What is still gathered is written now. After a failed write that is no news.
    if status != Status::Write && out.flush().is_err() {
        return Ok(Status::Write);
    }
    Ok(status)
}
