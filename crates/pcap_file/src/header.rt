//! The file header of a capture.
ghost use Rattle.std.specs.Prelude.{◌≡◌, ◌==◌, ◌||◌, IfErr, length};
ghost use Rattle.pcap_file.specs.Capture.{format_of, order_of, is_version as version_test, is_link as link_test, link_at};
ghost use Rattle.pcap_file.specs.Faults.{IsOfBytes};

use crate::fault::CaptureFault;
use crate::order::Order;

/// The magic number of a capture with stamps in microseconds.
const MICROSECONDS: u32 = 0xa1b2_c3d4;

/// The magic number of a capture with stamps in nanoseconds.
const NANOSECONDS: u32 = 0xa1b2_3c4d;

/// What a file header says of the records.
#[derive(Clone, Copy, Debug, PartialEq, Eq)]
pub(crate) struct Format {
    pub order: Order,
    /// The fractions of the stamps are nanoseconds, and microseconds otherwise.
    pub nanoseconds: bool,
    pub link: u16,
}

/// Reads a file header, whole.
pub(crate) fn read_header(bytes: &[u8]) -> Result<Format, CaptureFault>
    requires { length bytes.now ≡ 24 }
    ensures format { result ≡ format_of bytes.now }
    ensures fault { IfErr result IsOfBytes }
{
    if bytes.starts_with(&[0x0a, 0x0d, 0x0d, 0x0a]) {
        return Err(CaptureFault::Pcapng);
    }
    let order = match read_order(bytes) {
        Some(order) => order,
        None => return Err(CaptureFault::Magic),
    };
    if !is_version(order, bytes) {
        return Err(CaptureFault::Version);
    }
    let link = link_of(order, bytes);
    if !is_link(link) {
        return Err(CaptureFault::Link);
    }
    Ok(Format {
        order,
        nanoseconds: order.number32(bytes, 0) == NANOSECONDS,
        link,
    })
}

// The order in which the first four bytes are a magic number.
fn read_order(bytes: &[u8]) -> Option<Order>
    requires { length bytes.now ≡ 24 }
    ensures { result ≡ order_of bytes.now }
{
    if is_magic(Order::Little.number32(bytes, 0)) {
        Some(Order::Little)
    } else if is_magic(Order::Big.number32(bytes, 0)) {
        Some(Order::Big)
    } else {
        None
    }
}

fn is_magic(number: u32) -> bool
    ensures { result ≡ (number == 0xa1b2c3d4 || number == 0xa1b23c4d) }
{
    number == MICROSECONDS || number == NANOSECONDS
}

// The version is 2.4.
fn is_version(order: Order, bytes: &[u8]) -> bool
    requires { length bytes.now ≡ 24 }
    ensures { result ≡ version_test order bytes.now }
{
    order.number16(bytes, 4) == 2 && order.number16(bytes, 6) == 4
}

// The low 16 bits of the link field. The others are not looked at.
fn link_of(order: Order, bytes: &[u8]) -> u16
    requires { length bytes.now ≡ 24 }
    ensures { result ≡ link_at order bytes.now }
{
    (order.number32(bytes, 20) % 65536) as u16
}

/// Whether frames of this link type are understood: NULL, ETHERNET, RAW, LINUX_SLL, IPV4, IPV6 and LINUX_SLL2.
pub fn is_link(link: u16) -> bool
    ensures { result ≡ link_test link }
{
    matches!(link, 0 | 1 | 101 | 113 | 228 | 229 | 276)
}
