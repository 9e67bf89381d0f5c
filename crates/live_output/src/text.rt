//! Writing the histories of a run.
ghost use Rattle.std.specs.Prelude.{◌≡◌, ◌<◌, ◌≤◌, ◌-◌, ◌^◌, Some, false, length};
ghost use Rattle.log_text.specs.Text.{line_text as text_of_line};
ghost use Rattle.live_text.specs.Text.{entry_text};
ghost use Rattle.command_core.specs.Steps.{Prints};
ghost use Rattle.live_output.specs.Numbered.{flat_map_from};
ghost use Rattle.live_output.specs.Text.{ending_text, header_text, header_words};
ghost use Rattle.live_output.specs.Text.{histories_text, history_text, live_text, offset_text};
ghost use Rattle.live_output.specs.Text.{offset_words, offsets_text};
ghost use Rattle.live_output.specs.Totals.{done_line};

use crate::clocks::{LaneClock, clocks, offset};
use crate::totals::totals_of;
use command_core::{Stop, print_piece};
use live_bin::{Entry, LaneHistory, Plan, PlanLane};
use live_text::entry as entry_piece;
use log_text::line as line_piece;
use rtp_io::Sink;
use std::alloc::Global;
use std::fmt;
use timeline::BinLine;

/// Writes the histories of a run, one for each lane of the plan, then the offsets of the lanes'
/// clocks and what became of the packets. Each line is one piece.
///
/// The error is `Write` or `Memory`, and a front of the text was written then.
pub fn print_live<O: Sink>(
    alloc: Global,
    hex: bool,
    plan: &Plan,
    histories: &[LaneHistory],
    out: &mut O,
) -> Result<(), Stop>
    requires few { length plan.now.lanes ≤ 64 }
    requires each { length histories.now ≡ length plan.now.lanes }
    requires out { O.faults out.old < 2 ^ 64 - 1 }
    ensures { Prints (live_text hex plan.now histories.now) result
        (O.written out.old) (O.written out.new) (O.faults out.old) (O.faults out.new) }
{
    print_histories(alloc, hex, plan, histories, out)?;
    print_ending(alloc, plan, histories, out)
}

fn print_histories<O: Sink>(
    alloc: Global,
    hex: bool,
    plan: &Plan,
    histories: &[LaneHistory],
    out: &mut O,
) -> Result<(), Stop>
    requires few { length plan.now.lanes ≤ 64 }
    requires each { length histories.now ≡ length plan.now.lanes }
    requires out { O.faults out.old < 2 ^ 64 - 1 }
    ensures { Prints (histories_text hex plan.now histories.now) result
        (O.written out.old) (O.written out.new) (O.faults out.old) (O.faults out.new) }
{
    for number in 0..histories.len() {
        print_history(alloc, hex, plan, number as u8, &histories[number], out)?;
    }
    Ok(())
}

fn print_history<O: Sink>(
    alloc: Global,
    hex: bool,
    plan: &Plan,
    lane: u8,
    history: &LaneHistory,
    out: &mut O,
) -> Result<(), Stop>
    requires lane { lane < length plan.now.lanes }
    requires out { O.faults out.old < 2 ^ 64 - 1 }
    ensures { Prints (history_text hex plan.now lane history.now) result
        (O.written out.old) (O.written out.new) (O.faults out.old) (O.faults out.new) }
{
    print_header(alloc, lane, plan.lane(lane), out)?;
    print_entries(alloc, hex, history.entries(), out)
}

fn print_header<O: Sink>(alloc: Global, lane: u8, of: &PlanLane, out: &mut O) -> Result<(), Stop>
    requires { O.faults out.old < 2 ^ 64 - 1 }
    ensures { Prints (header_text lane of.now) result
        (O.written out.old) (O.written out.new) (O.faults out.old) (O.faults out.new) }
{
    let words = Header {
        lane,
        session: of.session,
        ssrc: of.ssrc,
    };
    let text = format!(in alloc; "{words}\n")?;
    print_piece(out, text.as_bytes())
}

// A lane's number, its session and its SSRC.
#[derive(Drop)]
struct Header {
    lane: u8,
    session: u8,
    ssrc: u32,
}

impl fmt::Display for Header {
    ghost output = { λ header. Some (header_words header.lane header.session header.ssrc) };

    fn fmt<W: fmt::Write>(&self, f: &mut fmt::Formatter<W>) -> fmt::Result {
        let lane = self.lane;
        let session = self.session;
        let ssrc = self.ssrc;
        write!(f, "history {lane} {session} {ssrc:08x}")
    }
}

fn print_entries<O: Sink>(
    alloc: Global,
    hex: bool,
    entries: &[Entry],
    out: &mut O,
) -> Result<(), Stop>
    requires { O.faults out.old < 2 ^ 64 - 1 }
    ensures { Prints (flat_map_from (entry_text hex) 0 entries.now) result
        (O.written out.old) (O.written out.new) (O.faults out.old) (O.faults out.new) }
{
    for index in 0..entries.len() {
        print_entry(alloc, hex, index as u64, &entries[index], out)?;
    }
    Ok(())
}

fn print_entry<O: Sink>(
    alloc: Global,
    hex: bool,
    index: u64,
    entry: &Entry,
    out: &mut O,
) -> Result<(), Stop>
    requires { O.faults out.old < 2 ^ 64 - 1 }
    ensures { Prints (entry_text hex index entry.now) result
        (O.written out.old) (O.written out.new) (O.faults out.old) (O.faults out.new) }
{
    let piece = entry_piece(alloc, index, entry, hex)?;
    print_piece(out, piece.bytes())
}

// Writes what stands behind the histories.
fn print_ending<O: Sink>(
    alloc: Global,
    plan: &Plan,
    histories: &[LaneHistory],
    out: &mut O,
) -> Result<(), Stop>
    requires few { length plan.now.lanes ≤ 64 }
    requires each { length histories.now ≡ length plan.now.lanes }
    requires out { O.faults out.old < 2 ^ 64 - 1 }
    ensures { Prints (ending_text plan.now histories.now) result
        (O.written out.old) (O.written out.new) (O.faults out.old) (O.faults out.new) }
{
    let clocks = clocks(alloc, plan, histories)?;
    print_offsets(alloc, clocks.as_slice(), out)?;
    print_done(alloc, plan, histories, out)
}

fn print_offsets<O: Sink>(alloc: Global, clocks: &[LaneClock], out: &mut O) -> Result<(), Stop>
    requires { O.faults out.old < 2 ^ 64 - 1 }
    ensures { Prints (offsets_text clocks.now) result
        (O.written out.old) (O.written out.new) (O.faults out.old) (O.faults out.new) }
{
    for clock in clocks {
        print_offset(alloc, clocks, clock, out)?;
    }
    Ok(())
}

fn print_offset<O: Sink>(
    alloc: Global,
    clocks: &[LaneClock],
    clock: &LaneClock,
    out: &mut O,
) -> Result<(), Stop>
    requires { O.faults out.old < 2 ^ 64 - 1 }
    ensures { Prints (offset_text clocks.now clock.now) result
        (O.written out.old) (O.written out.new) (O.faults out.old) (O.faults out.new) }
{
    let words = Offset {
        lane: clock.lane,
        ns: offset(clocks, clock),
    };
    let text = format!(in alloc; "{words}\n")?;
    print_piece(out, text.as_bytes())
}

// A lane's number and its offset.
#[derive(Drop)]
struct Offset {
    lane: u8,
    ns: u128,
}

impl fmt::Display for Offset {
    ghost output = { λ offset. Some (offset_words offset.lane offset.ns) };

    fn fmt<W: fmt::Write>(&self, f: &mut fmt::Formatter<W>) -> fmt::Result {
        let lane = self.lane;
        let ns = self.ns;
        write!(f, "offset {lane} {ns}")
    }
}

fn print_done<O: Sink>(
    alloc: Global,
    plan: &Plan,
    histories: &[LaneHistory],
    out: &mut O,
) -> Result<(), Stop>
    requires { O.faults out.old < 2 ^ 64 - 1 }
    ensures { Prints (text_of_line false (done_line plan.now histories.now)) result
        (O.written out.old) (O.written out.new) (O.faults out.old) (O.faults out.new) }
{
    let Some(totals) = totals_of(histories) else {
        return Err(Stop::Memory);
    };
    let done = BinLine::Done {
        records: plan.records(),
        lanes: plan.len() as u64,
        out: totals.out,
        lost: totals.lost,
        refused: totals.refused,
    };
    let piece = line_piece(alloc, &done, false)?;
    print_piece(out, piece.bytes())
}
