//! Captures of either form, pcap or pcapng, record by record.
#![tactic(auto)]

mod fault;
mod file;
mod record;
#[cfg(test)]
mod tests;

pub use fault::FileFault;
pub use file::CaptureFile;
pub use record::CaptureRecord;
