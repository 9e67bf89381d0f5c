//! The front of a block: its type and its total length.
ghost use Rattle.std.specs.Prelude.{◌≡◌, ◌≤◌, ◌%◌, true, IfOk, length};
ghost use Rattle.pcapng_file.specs.Blocks.{kind_of as kind_by, order_of as order_by};
ghost use Rattle.pcapng_file.specs.Blocks.{least_of as least_by, is_section, frame_of};

use crate::fault::NgFault;
use pcap_file::Order;

/// The type of a section header, as bytes. It reads the same in both orders.
pub(crate) const SECTION: [u8; 4] = [0x0a, 0x0d, 0x0d, 0x0a];

/// The first number of a section header's body.
const MAGIC: u32 = 0x1a2b_3c4d;

// The types of the other blocks that are looked at.
const INTERFACE: u32 = 1;

const SIMPLE: u32 = 3;

const PACKET: u32 = 6;

/// The type of a block.
#[derive(Clone, Copy, Debug, PartialEq, Eq)]
pub(crate) enum Kind {
    /// A section header.
    Section,
    /// The description of an interface.
    Interface,
    /// A packet with its interface and its time, called an enhanced one.
    Packet,
    /// A packet of the first interface, without a time.
    Simple,
    /// A block that is passed over.
    Other,
}

/// What the front of a block says of it.
#[derive(Clone, Copy, Debug, PartialEq, Eq)]
pub(crate) struct Frame {
    /// The byte order of the section that the block is in, or begins.
    pub order: Order,
    pub kind: Kind,
    /// How many bytes the block has.
    pub total: u32,
}

/// Reads the front of the block at this offset, in a section of this order.
#[tactic(auto, unfolding(crate::specs::Blocks::frame_of))]
pub(crate) fn read_frame(order: Order, offset: u64, front: &[u8]) -> Result<Frame, NgFault>
    requires { 12 ≤ length front.now }
    ensures frame { result ≡ frame_of order offset front.now }
    ensures least { IfOk result (λ frame. least_by frame.kind ≤ frame.total) }
    ensures whole { IfOk result (λ frame. frame.total % 4 ≡ 0) }
    ensures section { IfOk result (λ frame. is_section front.now ≡ true
        → frame.kind ≡ Kind.Section) }
{
    let order = match order_of(order, front) {
        Some(order) => order,
        None => return Err(NgFault::Order(offset)),
    };
    let kind = kind_of(order, front);
    let total = order.number32(front, 4);
    if total % 4 != 0 || total < least_of(kind) {
        return Err(NgFault::Block(offset));
    }
    Ok(Frame { order, kind, total })
}

// The order of the block's numbers: a section header tells its own by its magic.
fn order_of(order: Order, front: &[u8]) -> Option<Order>
    requires { 12 ≤ length front.now }
    ensures { result ≡ order_by order front.now }
{
    if !front.starts_with(&SECTION) {
        return Some(order);
    }
    if Order::Little.number32(front, 8) == MAGIC {
        Some(Order::Little)
    } else if Order::Big.number32(front, 8) == MAGIC {
        Some(Order::Big)
    } else {
        None
    }
}

fn kind_of(order: Order, front: &[u8]) -> Kind
    requires { 12 ≤ length front.now }
    ensures { result ≡ kind_by order front.now }
{
    if front.starts_with(&SECTION) {
        return Kind::Section;
    }
    match order.number32(front, 0) {
        INTERFACE => Kind::Interface,
        PACKET => Kind::Packet,
        SIMPLE => Kind::Simple,
        _ => Kind::Other,
    }
}

// The fewest bytes that a block of this type has.
fn least_of(kind: Kind) -> u32
    ensures { result ≡ least_by kind }
{
    match kind {
        Kind::Section => 28,
        Kind::Interface => 20,
        Kind::Packet => 32,
        Kind::Simple => 16,
        Kind::Other => 12,
    }
}
