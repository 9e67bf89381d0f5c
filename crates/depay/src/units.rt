//! Joining.
ghost use Rattle.std.specs.Prelude.{◌≡◌, ◌≤◌, ◌+◌, ◌++◌, List, [], ◌∷◌, length, true, false, Some, None, Ok, IfOk, OnErr, OnOk, MatchOption};
ghost use Rattle.depay.specs.declared.outcome.Format.{Format};
ghost use Rattle.depay.specs.Fragments.{Call, Takes, Gaps, packet};
ghost use Rattle.depay.specs.Outcomes.{outcomes_of, gap_of, alone, left_open, calls_after};
ghost use Rattle.depay.specs.Joining.{StandsFor, joining, closed, unit_goes_on, goes_on_with, on_outcomes, on_next, first_of, anew_outcomes, anew_next, starts as is_start};
ghost use Rattle.depay.specs.Shapes.{packet_of, IsShape};

use crate::aggregate::{push_units, single};
use crate::fragment::{OpenUnit, is_next, open_unit, restart};
use crate::outcome::{Cause, Format, Outcome};
use crate::payload::{FU_HEAD, MAX_UNIT, Packet, Shape, behind_first, has_end, shape_of};
use rtp_units::{Blob, OutOfMemory};
use std::alloc::Global;
use std::marker::Model;

/// For how many bytes of an open unit there is room from the beginning.
const FIRST_ROOM: usize = 4096;

/// Joins the payloads of one lane to units. Contracts see its format, the unit that is open, and that
/// unit's bytes so far.
#[derive(Drop)]
pub struct Depay {
    format: Format,
    unit: Option<OpenUnit>,
    bytes: Vec<u8>,
}

impl Model for Depay {
    ghost use Rattle.depay.specs.Joining.{Joining, joining};

    ghost Value = { Joining };

    ghost view = { λ d. joining d.format d.unit d.bytes.items };
}

impl Depay {
    /// No unit is open, and nothing was given.
    pub fn new(alloc: Global, format: Format) -> Result<Depay, OutOfMemory>
        ensures { IfOk result (λ d. StandsFor d format []) }
    {
        Ok(Depay {
            format,
            unit: None,
            bytes: Vec::with_capacity(alloc, FIRST_ROOM)?,
        })
    }

    /// Takes the next packet that left the lane: its number, RTP timestamp, presentation time in
    /// nanoseconds and payload. Gives the units that are whole with it, and what is broken. After a refusal
    /// all is as before.
    pub fn take(
        &mut self,
        alloc: Global,
        number: u64,
        rtp: u32,
        pts: u64,
        payload: &[u8],
    ) -> Result<Vec<Outcome>, OutOfMemory>
        ensures answer { (format : Format) (calls : List Call) → StandsFor self.old format calls
            → IfOk result
            (λ v. v.items ≡ outcomes_of format calls (packet number rtp pts payload.now)) }
        ensures stands { (format : Format) (calls : List Call) → StandsFor self.old format calls
            → StandsFor self.new format
            (calls_after (Takes (packet number rtp pts payload.now)) calls result) }
        ensures err { OnErr result (self.new ≡ self.old) }
    {
        let packet = Packet {
            number,
            rtp,
            pts,
            payload,
        };
        match continued(&self.unit, &packet) {
            Some(unit) => self.go_on(alloc, &unit, &packet),
            None => self.begin_anew(alloc, &packet),
        }
    }

    /// A gap: a loss, a flush, a new segment, the end, or a packet of another type. An open unit is dropped,
    /// and its first number given.
    pub fn gap(&mut self) -> Option<u64>
        ensures answer { (format : Format) (calls : List Call) → StandsFor self.old format calls
            → result ≡ gap_of format calls }
        ensures stands { (format : Format) (calls : List Call) → StandsFor self.old format calls
            → StandsFor self.new format (Gaps ∷ calls) }
    {
        let first = first_number(&self.unit);
        self.close();
        first
    }

    fn close(&mut self)
        ensures { self.new ≡ closed self.old }
    {
        self.unit = None;
        self.bytes.clear();
    }

    /// A packet that goes on with the open unit.
    fn go_on(
        &mut self,
        alloc: Global,
        unit: &OpenUnit,
        packet: &Packet<'_>,
    ) -> Result<Vec<Outcome>, OutOfMemory>
        requires { unit_goes_on unit.now (packet_of packet.now) ≡ true }
        ensures answer { IfOk result (λ v.
            v.items ≡ on_outcomes self.old unit.now (packet_of packet.now)) }
        ensures after { OnOk result (self.new ≡ on_next self.old unit.now (packet_of packet.now)) }
        ensures err { OnErr result (self.new ≡ self.old) }
    {
        let fragment = &packet.payload[FU_HEAD..];
        let size = self.bytes.len() + fragment.len();
        if size > MAX_UNIT {
            let outcomes = only(alloc, broken(packet.number, Cause::Large))?;
            self.close();
            return Ok(outcomes);
        }
        if has_end(packet.payload) {
            let bytes = both(alloc, self.bytes.as_slice(), fragment)?;
            let whole = Outcome::Unit {
                first: unit.first,
                last: packet.number,
                pts: unit.pts,
                bytes,
            };
            let outcomes = only(alloc, whole)?;
            self.close();
            return Ok(outcomes);
        }
        self.bytes.extend_from_slice(fragment)?;
        self.unit = Some(OpenUnit {
            last: packet.number,
            ..*unit
        });
        Ok(Vec::new(alloc))
    }

    /// Any other packet.
    fn begin_anew(
        &mut self,
        alloc: Global,
        packet: &Packet<'_>,
    ) -> Result<Vec<Outcome>, OutOfMemory>
        ensures answer { IfOk result
            (λ v. v.items ≡ anew_outcomes self.old (packet_of packet.now)) }
        ensures after { OnOk result (self.new ≡ anew_next self.old (packet_of packet.now)) }
        ensures err { OnErr result (self.new ≡ self.old) }
    {
        let mut outcomes = left(alloc, &self.unit)?;
        let starts = push_alone(alloc, &mut outcomes, self.format, packet)?;
        if !starts {
            self.close();
            return Ok(outcomes);
        }
        restart(&mut self.bytes, packet.payload)?;
        self.unit = Some(open_unit(packet));
        Ok(outcomes)
    }
}

/// The open unit, where the packet goes on with it.
fn continued(unit: &Option<OpenUnit>, packet: &Packet<'_>) -> Option<OpenUnit>
    ensures { MatchOption result (goes_on_with unit.now (packet_of packet.now) ≡ false)
        (λ u. (unit.now ≡ Some u) × (unit_goes_on u (packet_of packet.now) ≡ true)) }
{
    match unit {
        None => None,
        Some(unit) => {
            if is_next(unit, packet) {
                Some(*unit)
            } else {
                None
            }
        }
    }
}

/// The number of an open unit's first packet.
fn first_number(unit: &Option<OpenUnit>) -> Option<u64>
    ensures { result ≡ first_of unit.now }
{
    match unit {
        Some(unit) => Some(unit.first),
        None => None,
    }
}

fn broken(number: u64, cause: Cause) -> Outcome
    ensures { result ≡ Outcome.Broken number cause }
{
    Outcome::Broken { number, cause }
}

fn only(alloc: Global, outcome: Outcome) -> Result<Vec<Outcome>, OutOfMemory>
    ensures { IfOk result (λ v. v.items ≡ outcome ∷ []) }
{
    let mut outcomes = Vec::new(alloc);
    outcomes.push(outcome)?;
    Ok(outcomes)
}

fn both(alloc: Global, front: &[u8], back: &[u8]) -> Result<Blob, OutOfMemory>
    requires { length front.now + length back.now ≤ 1048576 }
    ensures { IfOk result (λ blob. blob ≡ front.now ++ back.now) }
{
    let mut bytes = Vec::with_capacity(alloc, front.len() + back.len())?;
    bytes.extend_from_slice(front)?;
    bytes.extend_from_slice(back)?;
    Ok(Blob::from_vec(bytes))
}

/// What an open unit leaves that isn't gone on with.
fn left(alloc: Global, unit: &Option<OpenUnit>) -> Result<Vec<Outcome>, OutOfMemory>
    ensures { IfOk result (λ v. v.items ≡ left_open (first_of unit.now)) }
{
    match first_number(unit) {
        Some(first) => only(alloc, broken(first, Cause::Incomplete)),
        None => Ok(Vec::new(alloc)),
    }
}

/// Adds the units of the packet itself, or its fault. True where it begins a fragmented unit.
fn push_alone(
    alloc: Global,
    outcomes: &mut Vec<Outcome>,
    format: Format,
    packet: &Packet<'_>,
) -> Result<bool, OutOfMemory>
    ensures added { OnOk result (outcomes.new.items
        ≡ outcomes.old.items ++ alone format (packet_of packet.now)) }
    ensures start { IfOk result (λ start. start ≡ is_start format (packet_of packet.now)) }
    ensures head { IfOk result (λ start. start ≡ true → 2 ≤ length packet.now.payload.now) }
{
    match format {
        Format::Pcmu => push_pcmu(alloc, outcomes, packet),
        Format::H264 => push_h264(alloc, outcomes, packet),
    }
}

fn push_pcmu(
    alloc: Global,
    outcomes: &mut Vec<Outcome>,
    packet: &Packet<'_>,
) -> Result<bool, OutOfMemory>
    ensures added { OnOk result (outcomes.new.items
        ≡ outcomes.old.items ++ alone Format.Pcmu (packet_of packet.now)) }
    ensures start { IfOk result (λ start. start ≡ false) }
{
    let outcome = if packet.payload.is_empty() {
        broken(packet.number, Cause::Empty)
    } else if packet.payload.len() > MAX_UNIT {
        broken(packet.number, Cause::Large)
    } else {
        single(alloc, packet, packet.payload)?
    };
    outcomes.push(outcome)?;
    Ok(false)
}

fn push_h264(
    alloc: Global,
    outcomes: &mut Vec<Outcome>,
    packet: &Packet<'_>,
) -> Result<bool, OutOfMemory>
    ensures added { OnOk result (outcomes.new.items
        ≡ outcomes.old.items ++ alone Format.H264 (packet_of packet.now)) }
    ensures start { IfOk result (λ start. start ≡ is_start Format.H264 (packet_of packet.now)) }
    ensures head { IfOk result (λ start. start ≡ true → 2 ≤ length packet.now.payload.now) }
{
    match shape_of(packet.payload) {
        Ok(shape) => push_shape(alloc, outcomes, packet, shape),
        Err(cause) => {
            outcomes.push(broken(packet.number, cause))?;
            Ok(false)
        }
    }
}

fn push_shape(
    alloc: Global,
    outcomes: &mut Vec<Outcome>,
    packet: &Packet<'_>,
    shape: Shape,
) -> Result<bool, OutOfMemory>
    requires { IsShape packet.now.payload.now (Ok shape) }
    ensures added { OnOk result (outcomes.new.items
        ≡ outcomes.old.items ++ alone Format.H264 (packet_of packet.now)) }
    ensures start { IfOk result (λ start. start ≡ is_start Format.H264 (packet_of packet.now)) }
    ensures head { IfOk result (λ start. start ≡ true → 2 ≤ length packet.now.payload.now) }
{
    match shape {
        Shape::Start => Ok(true),
        Shape::Aggregate => {
            push_units(alloc, outcomes, packet, behind_first(packet.payload))?;
            Ok(false)
        }
        Shape::Single => {
            outcomes.push(single(alloc, packet, packet.payload)?)?;
            Ok(false)
        }
    }
}
