//! The packets of a pcapng file, record by record.
#![tactic(auto)]

mod block;
mod content;
mod fault;
mod frame;
mod interface;
mod mark;
mod ng;
mod options;
mod packet;
mod pieces;
#[cfg(test)]
mod tests;

pub use fault::NgFault;
pub use ng::Ng;
pub use packet::NgRecord;
