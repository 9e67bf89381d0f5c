//! What a packet is to the table of sources.
ghost use Rattle.std.specs.Prelude.{◌≡◌, ◌<◌, ◌≤◌, ◌+◌, ◌^◌, nat_eq, IfOk, OnOk};
ghost use Rattle.std.specs.List.{list_any};
ghost use Rattle.source_table.specs.Table.{packet_of};
ghost use Rattle.source_table.specs.Answers.{heard, heard_next};
ghost use Rattle.rtp_session.specs.Answers.{as_heard};

use crate::answers::DropCause;
use indexmap::IndexSet;
use rtp_units::{Address, OutOfMemory};
use rtp_wire::RtpView;
use source_table::laws::tables_have_one_answer;
use source_table::{Heard, Refuse, SourceTable};

/// Lets the table hear a packet, and answers what it was to its source, or why it was not heard.
pub(crate) fn hear(
    sources: &mut SourceTable,
    now: u64,
    from: Address,
    view: &RtpView<'_>,
    rate: Option<u32>,
    quick: bool,
) -> Result<Result<Heard, DropCause>, OutOfMemory>
    requires { sources.old.heard < 2 ^ 40 }
    ensures answer { IfOk result (λ answer.
        as_heard answer
        ≡ heard sources.old from view.now.ssrc (packet_of sources.old now view.now rate quick)) }
    ensures after { OnOk result (sources.new
        ≡ heard_next sources.old from view.now.ssrc
        (packet_of sources.old now view.now rate quick)) }
    ensures count { OnOk result (sources.new.heard ≤ sources.old.heard + 1) }
{
    // A law for the proof; the call does nothing.
    tables_have_one_answer();
    match sources.hear_rtp(now, from, view, rate, quick) {
        Ok(heard) => Ok(Ok(heard)),
        Err(Refuse::Own) => Ok(Err(DropCause::Own)),
        Err(Refuse::LimitSources) => Ok(Err(DropCause::Sources)),
        Err(Refuse::Collision { kept, new }) => Ok(Err(DropCause::Collision { kept, new })),
        Err(Refuse::OutOfMemory) => Err(OutOfMemory),
    }
}

/// Whether a source is valid at once. A session that names no such source, as most, looks none up.
pub(crate) fn is_quick(quick: &IndexSet<u32>, ssrc: u32) -> bool
    ensures { result ≡ list_any (nat_eq ssrc) quick.now.keys }
{
    if quick.is_empty() {
        return false;
    }
    quick.contains(&ssrc)
}
