//! What a front reads of a script.
ghost use Rattle.std.specs.Prelude.{◌≡◌, ◌<◌, ℕ, nat_eq, if◌then◌else◌, find, slice_index};
ghost use Rattle.std.specs.Prelude.{Some, None, OnOk, IfOk};
ghost use Rattle.script_lang.specs.Contents.{Contents};
ghost use Rattle.front_model.specs.Records.{is_to};
ghost use Rattle.front_model.specs.Steps.{opening_settings, repeats_for as is_repeated};
ghost use Rattle.front_model.specs.Steps.{pushers as pushers_by, pusher_bit as bit_of};
ghost use Rattle.front_model.specs.Steps.{opening as opening_by};
ghost use Rattle.front_model.specs.Types.{rate as rate_by, is_rtx};
ghost use Rattle.std.specs.Map.{lookup};
ghost use Rattle.std.specs.Option.{option_or};
ghost use Rattle.std.specs.List.{list_any};
ghost use Rattle.rtp_front.specs.Chosen.{is_type, IsReadOf};

use front_model::Opening;
use indexmap::{IndexMap, IndexSet};
use jitter_model::Settings;
use rtp_units::OutOfMemory;
use script_lang::{PtLine, Script, SessionLine};
use std::alloc::Global;
use std::marker::Model;

/// The script's side of a lane: the pusher for its timed lines.
const CONTROL: u16 = 1 << 8;

/// The most sessions.
const SESSIONS: u8 = 8;

/// The sessions by their ports; by session and payload type the clock rates, and which types carry
/// retransmissions; and how lanes begin: the settings but for rate and pushers, and who may push
/// into the lanes of each session.
#[derive(Drop)]
pub(crate) struct Choices {
    ports: IndexMap<u16, SessionLine>,
    rates: IndexMap<(u8, u8), u32>,
    retransmissions: IndexSet<(u8, u8)>,
    settings: Settings,
    pushers: [u16; 8],
}

impl Model for Choices {
    ghost use Rattle.rtp_front.specs.Chosen.{Chosen};

    ghost Value = { Chosen };

    ghost view = { λ x. record {
      ports = x.ports.entries;
      rates = x.rates.entries;
      retransmissions = x.retransmissions.keys;
      settings = x.settings;
      pushers = x.pushers;
    } };
}

impl Choices {
    pub(crate) fn of(alloc: Global, script: &Script) -> Result<Choices, OutOfMemory>
        ensures { IfOk result (λ x. IsReadOf script.now x) }
    {
        Ok(Choices {
            ports: ports_of(alloc, script)?,
            rates: rates_of(alloc, script)?,
            retransmissions: retransmissions_of(alloc, script)?,
            settings: settings_of(script),
            pushers: pushers_of(script),
        })
    }

    /// The session that has this port.
    pub(crate) fn session_at(&self, port: u16) -> Option<SessionLine>
        ensures { (c : Contents) → IsReadOf c self.now → result ≡ find (is_to port) c.sessions }
    {
        self.ports.get(&port).copied()
    }

    /// The clock rate of a payload type of a session.
    pub(crate) fn rate(&self, session: u8, pt: u8) -> Option<u32>
        ensures { (c : Contents) → IsReadOf c self.now → result ≡ rate_by c session pt }
    {
        self.rates.get(&(session, pt)).copied()
    }

    /// Whether packets of this type of this session are retransmissions.
    pub(crate) fn is_retransmission(&self, session: u8, pt: u8) -> bool
        ensures { (c : Contents) → IsReadOf c self.now → result ≡ is_rtx c session pt }
    {
        self.retransmissions.contains(&(session, pt))
    }

    /// How a lane begins.
    pub(crate) fn opening(&self, lane: u8, session: u8, ssrc: u32, rate: u32) -> Opening
        requires { session < 8 }
        ensures { (c : Contents) → IsReadOf c self.now
            → result ≡ opening_by c lane session ssrc rate }
    {
        Opening {
            lane,
            session,
            ssrc,
            settings: Settings {
                rate,
                pushers: self.pushers[usize::from(session)],
                ..self.settings
            },
        }
    }
}

fn ports_of(alloc: Global, script: &Script) -> Result<IndexMap<u16, SessionLine>, OutOfMemory>
    ensures { IfOk result (λ m. (port : ℕ)
        → lookup (nat_eq port) m.entries ≡ find (is_to port) script.now.sessions) }
{
    let mut ports = IndexMap::new(alloc);
    for line in script.sessions.as_slice() {
        note_port(&mut ports, line.rtp, *line)?;
        note_port(&mut ports, line.rtcp, *line)?;
    }
    Ok(ports)
}

/// Notes the session of a port, where none is noted yet.
fn note_port(
    ports: &mut IndexMap<u16, SessionLine>,
    port: u16,
    line: SessionLine,
) -> Result<(), OutOfMemory>
    ensures { OnOk result ((q : ℕ) → lookup (nat_eq q) ports.new.entries
        ≡ option_or (lookup (nat_eq q) ports.old.entries)
        (if nat_eq port q then Some line else None)) }
{
    if !ports.contains_key(&port) {
        ports.insert(port, line)?;
    }
    Ok(())
}

fn rates_of(alloc: Global, script: &Script) -> Result<IndexMap<(u8, u8), u32>, OutOfMemory>
    ensures { IfOk result (λ m. (session pt : ℕ)
        → lookup (is_type (session, pt)) m.entries ≡ rate_by script.now session pt) }
{
    let mut rates = IndexMap::new(alloc);
    for line in script.pts.as_slice() {
        note_rate(&mut rates, line)?;
    }
    Ok(rates)
}

/// Notes the rate of a type, where none is noted yet.
fn note_rate(rates: &mut IndexMap<(u8, u8), u32>, line: &PtLine) -> Result<(), OutOfMemory>
    ensures { OnOk result ((session pt : ℕ) → lookup (is_type (session, pt)) rates.new.entries
        ≡ option_or (lookup (is_type (session, pt)) rates.old.entries)
        (if is_type (line.now.session, line.now.pt) (session, pt)
        then Some line.now.rate else None)) }
{
    let key = (line.session, line.pt);
    if !rates.contains_key(&key) {
        rates.insert(key, line.rate)?;
    }
    Ok(())
}

fn retransmissions_of(alloc: Global, script: &Script) -> Result<IndexSet<(u8, u8)>, OutOfMemory>
    ensures { IfOk result (λ types. (session pt : ℕ)
        → list_any (is_type (session, pt)) types.keys ≡ is_rtx script.now session pt) }
{
    let mut types = IndexSet::new(alloc);
    for line in script.rtx.as_slice() {
        types.insert((line.session, line.pt))?;
    }
    Ok(types)
}

fn settings_of(script: &Script) -> Settings
    ensures { (session rate : ℕ)
        → record result { rate = rate; pushers = pushers_by script.now session }
        ≡ opening_settings script.now session rate }
{
    let chosen = &script.settings;
    Settings {
        rate: 1,
        mode: chosen.mode,
        latency: chosen.latency,
        rtx: chosen.rtx,
        rtx_delay: chosen.rtx_delay,
        rtx_retry: chosen.rtx_retry,
        rtx_max: chosen.rtx_max,
        reorder: chosen.reorder,
        dropout: chosen.dropout,
        misorder: chosen.misorder,
        faststart: chosen.faststart,
        pushers: 0,
    }
}

/// For each session who may push into its lanes, as bits: the session, those that carry
/// retransmissions of its packets, and the script.
fn pushers_of(script: &Script) -> [u16; 8]
    ensures { (session : ℕ) → session < 8
        → slice_index result session ≡ pushers_by script.now session }
{
    let mut pushers = [0; 8];
    for session in 0..SESSIONS {
        pushers[usize::from(session)] = pushers_in(script, session);
    }
    pushers
}

fn pushers_in(script: &Script, session: u8) -> u16
    requires { session < 8 }
    ensures { result ≡ pushers_by script.now session }
{
    let mut bits = 0;
    for other in 0..SESSIONS {
        bits |= pusher_bit(script, session, other);
    }
    bits | CONTROL
}

/// The bit of a session that may push into the lanes of this one.
fn pusher_bit(script: &Script, session: u8, other: u8) -> u16
    requires { other < 8 }
    ensures { result ≡ bit_of script.now session other }
{
    if other == session || repeats_for(script, session, other) {
        1 << other
    } else {
        0
    }
}

/// Whether a session carries retransmissions of packets of this one.
fn repeats_for(script: &Script, session: u8, other: u8) -> bool
    ensures { result ≡ is_repeated script.now session other }
{
    script
        .rtx
        .iter()
        .any(|line| line.session == other && line.osession == session)
}
