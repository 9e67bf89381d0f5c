//! The byte order of a capture's numbers.
ghost use Rattle.std.specs.Prelude.{◌≡◌, ◌+◌, ◌≤◌, length};

use byteorder::{BigEndian, ByteOrder, LittleEndian};

/// Which byte of a number comes first.
#[derive(Clone, Copy, Debug, PartialEq, Eq)]
pub enum Order {
    /// The lowest.
    Little,
    /// The highest.
    Big,
}

impl Order {
    ghost use Rattle.pcap_file.specs.Numbers.{number_at};

    /// The number in the two bytes from a place on.
    pub fn number16(self, bytes: &[u8], place: usize) -> u16
        requires { place + 2 ≤ length bytes.now }
        ensures { result ≡ number_at self 2 place bytes.now }
    {
        match self {
            Order::Little => LittleEndian::read_u16(&bytes[place..]),
            Order::Big => BigEndian::read_u16(&bytes[place..]),
        }
    }

    /// The number in the four bytes from a place on.
    pub fn number32(self, bytes: &[u8], place: usize) -> u32
        requires { place + 4 ≤ length bytes.now }
        ensures { result ≡ number_at self 4 place bytes.now }
    {
        match self {
            Order::Little => LittleEndian::read_u32(&bytes[place..]),
            Order::Big => BigEndian::read_u32(&bytes[place..]),
        }
    }

    /// The number in the eight bytes from a place on.
    pub fn number64(self, bytes: &[u8], place: usize) -> u64
        requires { place + 8 ≤ length bytes.now }
        ensures { result ≡ number_at self 8 place bytes.now }
    {
        match self {
            Order::Little => LittleEndian::read_u64(&bytes[place..]),
            Order::Big => BigEndian::read_u64(&bytes[place..]),
        }
    }
}
