//! Why a capture file could not be read.
use pcap_file::CaptureFault;
use pcapng_file::NgFault;
use thiserror::Error;

/// What ends the reading of a capture file.
#[derive(Clone, Copy, PartialEq, Eq, Debug, Drop, Error)]
pub enum FileFault {
    /// The bytes are no pcap capture.
    #[error(transparent)]
    Pcap(CaptureFault),
    /// The bytes are no pcapng file.
    #[error(transparent)]
    Ng(NgFault),
    /// A read failed.
    #[error("a read failed")]
    ReadFault,
    /// Memory was refused.
    #[error("out of memory")]
    OutOfMemory,
}

impl FileFault {
    ghost use Rattle.std.specs.Prelude.{◌≡◌};
    ghost use Rattle.capture_file.specs.Faults.{word_of, offset_of};
    ghost use Rattle.capture_file.specs.Faults.{fault_of_pcap, fault_of_ng};

    /// The program's word for the fault: that of its form.
    pub fn word(&self) -> &'static str
        ensures { result.now ≡ word_of self.now }
    {
        match self {
            FileFault::Pcap(fault) => fault.word(),
            FileFault::Ng(fault) => fault.word(),
            FileFault::ReadFault => "read-fault",
            FileFault::OutOfMemory => "out-of-memory",
        }
    }

    /// Where the fault is in the file: the offset of the record or of the block, and 0 for the file
    /// header of a pcap capture, for a failed read and for want of memory.
    pub fn offset(&self) -> u64
        ensures { result ≡ offset_of self.now }
    {
        match self {
            FileFault::Pcap(fault) => fault.offset(),
            FileFault::Ng(fault) => fault.offset(),
            FileFault::ReadFault | FileFault::OutOfMemory => 0,
        }
    }

    /// A fault met in a pcap capture.
    pub(crate) fn of_pcap(fault: CaptureFault) -> FileFault
        ensures { result ≡ fault_of_pcap fault }
    {
        match fault {
            CaptureFault::ReadFault => FileFault::ReadFault,
            CaptureFault::OutOfMemory => FileFault::OutOfMemory,
            fault => FileFault::Pcap(fault),
        }
    }

    /// A fault met in a pcapng file.
    pub(crate) fn of_ng(fault: NgFault) -> FileFault
        ensures { result ≡ fault_of_ng fault }
    {
        match fault {
            NgFault::ReadFault => FileFault::ReadFault,
            NgFault::OutOfMemory => FileFault::OutOfMemory,
            fault => FileFault::Ng(fault),
        }
    }
}
