//! The last packets of streams, and the numbers of retransmission streams.
ghost use Rattle.std.specs.Prelude.{◌≡◌, ◌+◌, ◌%◌, [], ◌∷◌, cond, length, Some, None, IsSome, OnOk, OnErr, option_map, option_copied, unwrap_or};
ghost use Rattle.std.specs.Option.{option_and_then};
ghost use Rattle.std.specs.Map.{lookup};
ghost use Rattle.circular_buffer.specs.Buffer.{buffer};
ghost use Rattle.rtx.specs.Sending.{Stream as StreamKey, is_stream, latest_in, pushed};

use crate::packets::SentPackets;
use crate::sent::SentPacket;
use indexmap::IndexMap;
use rtp_units::OutOfMemory;
use std::alloc::Global;

/// A session and an SSRC.
pub(crate) type Stream = (u8, u32);

/// The last packets of streams, the latest first.
pub(crate) type Streams = IndexMap<Stream, SentPackets>;

/// Adds a packet of a stream that is remembered, which takes no memory.
pub(crate) fn add_packet(streams: &mut Streams, stream: Stream, sent: SentPacket)
    requires { IsSome (lookup (is_stream stream) streams.old.entries) }
    ensures streams { (q : StreamKey) → lookup (is_stream q) streams.new.entries
        ≡ cond (is_stream stream q)
        (option_map (pushed sent) (lookup (is_stream stream) streams.old.entries))
        (lookup (is_stream q) streams.old.entries) }
    ensures count { length streams.new.entries ≡ length streams.old.entries }
{
    if let Some(packets) = streams.get_mut(&stream) {
        packets.add(sent);
    }
}

/// Remembers a new stream from its first packet on.
pub(crate) fn add_stream(
    alloc: Global,
    streams: &mut Streams,
    stream: Stream,
    per_stream: u16,
    sent: SentPacket,
) -> Result<(), OutOfMemory>
    requires { lookup (is_stream stream) streams.old.entries ≡ None }
    ensures streams { OnOk result ((q : StreamKey)
        → lookup (is_stream q) streams.new.entries
        ≡ cond (is_stream stream q) (Some (pushed sent (buffer [] per_stream)))
        (lookup (is_stream q) streams.old.entries)) }
    ensures count { OnOk result (length streams.new.entries ≡ length streams.old.entries + 1) }
    ensures err { OnErr result (streams.new.entries ≡ streams.old.entries) }
{
    let mut packets = SentPackets::with_capacity(alloc, per_stream)?;
    packets.add(sent);
    streams.insert(stream, packets)?;
    Ok(())
}

/// The latest remembered packet with this number.
pub(crate) fn latest(streams: &Streams, stream: Stream, seq: u16) -> Option<&SentPacket>
    ensures { option_copied result ≡ option_and_then (λ b. latest_in b.items seq)
        (lookup (is_stream stream) streams.now.entries) }
{
    let packets = streams.get(&stream)?;
    packets.latest(seq)
}

/// The next number of a retransmission stream; the first is 0.
pub(crate) fn next_number(numbers: &IndexMap<Stream, u16>, stream: Stream) -> u16
    ensures { result ≡ unwrap_or (lookup (is_stream stream) numbers.now.entries) 0 }
{
    match numbers.get(&stream) {
        None => 0,
        Some(number) => *number,
    }
}

/// Counts on, modulo 2^16, from a number that went out.
pub(crate) fn count_on(
    numbers: &mut IndexMap<Stream, u16>,
    stream: Stream,
    number: u16,
) -> Result<(), OutOfMemory>
    ensures numbers { OnOk result ((q : StreamKey)
        → lookup (is_stream q) numbers.new.entries
        ≡ cond (is_stream stream q) (Some ((number + 1) % 65536))
        (lookup (is_stream q) numbers.old.entries)) }
    ensures err { OnErr result (numbers.new.entries ≡ numbers.old.entries) }
{
    numbers.insert(stream, number.wrapping_add(1))?;
    Ok(())
}
