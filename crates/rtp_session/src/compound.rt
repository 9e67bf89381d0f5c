//! What a compound of RTCP tells of the sources: its names first, then the rest in its order.
ghost use Rattle.std.specs.Prelude.{◌≡◌, ◌≤◌, ◌++◌, ◌∷◌, [], length, map, find, flat_map, option_map, IfOk, IfSome, OnOk};
ghost use Rattle.std.specs.List.{AllByRecursion};
ghost use Rattle.rtcp_wire.specs.Grammar.{HasShortTexts, TextsFit};
ghost use Rattle.front_model.specs.Given.{Names, Reports, Leaves, Rtcp as OfRtcp, asks_of, is_cname, chunk_asks, name_asks, other_asks};
ghost use Rattle.rtp_session.specs.Answers.{told};
ghost use Rattle.rtp_session.specs.Compounds.{Tells, calls_notes, calls_next};

use crate::answers::SessionNote;
use rtcp_wire::{Chunk, Rtcp};
use rtp_units::{Blob, OutOfMemory, ntp_to_ns};
use source_table::laws::tables_have_one_answer;
use source_table::{Named, SourceTable};
use std::alloc::Global;

/// The type of a CNAME item (RFC 3550, section 6.5.1).
const CNAME: u8 = 1;

/// Hears the packets of a compound that came at `now`.
pub(crate) fn hear_compound(
    alloc: Global,
    sources: &mut SourceTable,
    now: u64,
    packets: &[Rtcp],
) -> Result<Vec<SessionNote>, OutOfMemory>
    requires { AllByRecursion HasShortTexts packets.now }
    ensures { IfOk result (λ notes.
        Tells sources.old sources.new [] notes.items (asks_of (OfRtcp now packets.now))) }
{
    let mut notes = Vec::new(alloc);
    hear_names(alloc, sources, packets, &mut notes)?;
    hear_others(sources, now, packets, &mut notes)?;
    Ok(notes)
}

fn hear_names(
    alloc: Global,
    sources: &mut SourceTable,
    packets: &[Rtcp],
    notes: &mut Vec<SessionNote>,
) -> Result<(), OutOfMemory>
    requires { AllByRecursion HasShortTexts packets.now }
    ensures { OnOk result (Tells sources.old sources.new notes.old.items notes.new.items
        (flat_map name_asks packets.now)) }
{
    for packet in packets {
        hear_descriptions(alloc, sources, packet, notes)?;
    }
    Ok(())
}

fn hear_descriptions(
    alloc: Global,
    sources: &mut SourceTable,
    packet: &Rtcp,
    notes: &mut Vec<SessionNote>,
) -> Result<(), OutOfMemory>
    requires { HasShortTexts packet.now }
    ensures { OnOk result (Tells sources.old sources.new notes.old.items notes.new.items
        (name_asks packet.now)) }
{
    match packet {
        Rtcp::Sdes { chunks } => name_sources(alloc, sources, chunks.as_slice(), notes),
        Rtcp::Sr { .. }
        | Rtcp::Rr { .. }
        | Rtcp::Bye { .. }
        | Rtcp::App { .. }
        | Rtcp::Nacks { .. }
        | Rtcp::Feedback { .. }
        | Rtcp::Unknown { .. } => Ok(()),
    }
}

fn name_sources(
    alloc: Global,
    sources: &mut SourceTable,
    chunks: &[Chunk],
    notes: &mut Vec<SessionNote>,
) -> Result<(), OutOfMemory>
    requires { AllByRecursion TextsFit chunks.now }
    ensures { OnOk result (Tells sources.old sources.new notes.old.items notes.new.items
        (flat_map chunk_asks chunks.now)) }
{
    for chunk in chunks {
        describe(alloc, sources, chunk, notes)?;
    }
    Ok(())
}

/// Of a chunk the first CNAME counts.
fn describe(
    alloc: Global,
    sources: &mut SourceTable,
    chunk: &Chunk,
    notes: &mut Vec<SessionNote>,
) -> Result<(), OutOfMemory>
    requires { TextsFit chunk.now }
    ensures { OnOk result (Tells sources.old sources.new notes.old.items notes.new.items
        (chunk_asks chunk.now)) }
{
    match cname(chunk) {
        Some(text) => name(alloc, sources, chunk.ssrc, text, notes),
        None => Ok(()),
    }
}

fn cname(chunk: &Chunk) -> Option<&[u8]>
    requires { TextsFit chunk.now }
    ensures value { option_map (λ text. text.now) result
        ≡ option_map (λ item. item.text) (find is_cname chunk.now.items) }
    ensures short { IfSome result (λ text. length text.now ≤ 255) }
{
    for item in chunk.items.as_slice() {
        if item.kind == CNAME {
            return Some(item.text.bytes());
        }
    }
    None
}

fn name(
    alloc: Global,
    sources: &mut SourceTable,
    ssrc: u32,
    text: &[u8],
    notes: &mut Vec<SessionNote>,
) -> Result<(), OutOfMemory>
    requires { length text.now ≤ 255 }
    ensures { OnOk result (Tells sources.old sources.new notes.old.items notes.new.items
        (Names ssrc text.now ∷ [])) }
{
    // A law for the proof; the call does nothing.
    tables_have_one_answer();
    match sources.set_cname(alloc, ssrc, text)? {
        Named::Changed => {
            let text = Blob::copy_of(alloc, text)?;
            notes.push(SessionNote::Cname { ssrc, text })?;
        }
        Named::Same | Named::Unknown => {}
    }
    Ok(())
}

fn hear_others(
    sources: &mut SourceTable,
    now: u64,
    packets: &[Rtcp],
    notes: &mut Vec<SessionNote>,
) -> Result<(), OutOfMemory>
    ensures { OnOk result (Tells sources.old sources.new notes.old.items notes.new.items
        (flat_map (other_asks now) packets.now)) }
{
    for packet in packets {
        hear_other(sources, now, packet, notes)?;
    }
    Ok(())
}

fn hear_other(
    sources: &mut SourceTable,
    now: u64,
    packet: &Rtcp,
    notes: &mut Vec<SessionNote>,
) -> Result<(), OutOfMemory>
    ensures { OnOk result (Tells sources.old sources.new notes.old.items notes.new.items
        (other_asks now packet.now)) }
{
    match packet {
        Rtcp::Sr {
            ssrc,
            seconds,
            fraction,
            rtp,
            ..
        } => {
            let note = hear_report(sources, now, *ssrc, *seconds, *fraction, *rtp);
            notes.push(note)?;
            Ok(())
        }
        Rtcp::Bye { ssrcs, .. } => hear_byes(sources, ssrcs.as_slice(), notes),
        Rtcp::Rr { .. }
        | Rtcp::Sdes { .. }
        | Rtcp::App { .. }
        | Rtcp::Nacks { .. }
        | Rtcp::Feedback { .. }
        | Rtcp::Unknown { .. } => Ok(()),
    }
}

fn hear_report(
    sources: &mut SourceTable,
    now: u64,
    ssrc: u32,
    seconds: u32,
    fraction: u32,
    rtp: u32,
) -> SessionNote
    ensures note { told result ∷ []
        ≡ calls_notes sources.old (Reports now ssrc seconds fraction rtp ∷ []) }
    ensures table { sources.new
        ≡ calls_next sources.old (Reports now ssrc seconds fraction rtp ∷ []) }
{
    if sources.hear_sr(now, ssrc, seconds, fraction) {
        SessionNote::Sr {
            ssrc,
            ntp_ns: ntp_to_ns(seconds, fraction),
            rtp,
        }
    } else {
        SessionNote::Stray(ssrc)
    }
}

fn hear_byes(
    sources: &mut SourceTable,
    ssrcs: &[u32],
    notes: &mut Vec<SessionNote>,
) -> Result<(), OutOfMemory>
    ensures { OnOk result (Tells sources.old sources.new notes.old.items notes.new.items
        (map Leaves ssrcs.now)) }
{
    for ssrc in ssrcs {
        hear_bye(sources, *ssrc, notes)?;
    }
    Ok(())
}

fn hear_bye(
    sources: &mut SourceTable,
    ssrc: u32,
    notes: &mut Vec<SessionNote>,
) -> Result<(), OutOfMemory>
    ensures { OnOk result (Tells sources.old sources.new notes.old.items notes.new.items
        (Leaves ssrc ∷ [])) }
{
    if sources.hear_bye(ssrc) {
        notes.push(SessionNote::Bye(ssrc))?;
    }
    Ok(())
}
