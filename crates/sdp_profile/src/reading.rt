//! Reading a description.
ghost use Rattle.std.specs.Prelude.{◌≡◌, ◌≤◌, length, position};
ghost use Rattle.std.specs.List.{position_or_len};
ghost use Rattle.sdp_profile.specs.Descriptions.{described as described_by, description_of};
ghost use Rattle.sdp_profile.specs.Sections.{is_media, until_media, from_media, sections_of};
ghost use Rattle.sdp_profile.specs.Sections.{with_sections};
ghost use Rattle.sdp_profile.specs.Reading.{Answers, Leaves, line_in, lines_in};
ghost use Rattle.sdp_profile.specs.declared.fault.SdpFault.TheVariants as fault;

use crate::description::Description;
use crate::draft::Draft;
use crate::fault::{SdpCause, SdpFault};
use crate::lines::{TextLine, filled_lines};
use crate::section::{fault_of_lines, placed};
use crate::text::spells;
use std::alloc::Global;

/// The most bytes of a description.
pub const MAX_DESCRIPTION: usize = 1_048_576;

/// The description that a text is. Else `Bad` tells the first bad line, counted from 1, and the
/// first test that it fails; line 0 and `Size` stand for a text of more than `MAX_DESCRIPTION`
/// bytes, and line 1 and `Version` for one of empty lines alone. `OutOfMemory` may come at any
/// line.
#[tactic(auto, unfolding(crate::specs::Descriptions::description_of))]
pub fn read_description(alloc: Global, sdp: &[u8]) -> Result<Description, SdpFault>
    ensures { Answers result (description_of sdp.now) }
{
    if sdp.len() > MAX_DESCRIPTION {
        return Err(bad(0, SdpCause::Size));
    }
    let lines = filled_lines(alloc, sdp)?;
    match lines.as_slice() {
        [] => Err(bad(1, SdpCause::Version)),
        [first, rest @ ..] => {
            if spells(first.text, "v=0") {
                described(alloc, rest)
            } else {
                Err(bad(first.number, SdpCause::Version))
            }
        }
    }
}

fn bad(line: u32, cause: SdpCause) -> SdpFault
    ensures { result ≡ fault.Bad line cause }
{
    SdpFault::Bad { line, cause }
}

// What the lines behind `v=0` say.
fn described(alloc: Global, lines: &[TextLine<'_>]) -> Result<Description, SdpFault>
    ensures { Answers result (described_by (lines_in lines.now)) }
{
    let (head, sections) = split_at_media(lines);
    let head = placed(alloc, head)?;
    if let Some(fault) = fault_of_lines(&head) {
        return Err(fault.bad());
    }
    let mut draft = Draft::new(alloc);
    add_sections(alloc, &mut draft, sections)?;
    Ok(draft.finish())
}

// Takes up the sections.
fn add_sections(alloc: Global, draft: &mut Draft, sections: &[TextLine<'_>]) -> Result<(), SdpFault>
    ensures { Leaves result (with_sections draft.old (sections_of (lines_in sections.now)))
        draft.new }
{
    let (_, mut rest) = split_at_media(sections);
    while let [media, behind @ ..] = rest {
        let (lines, next) = split_at_media(behind);
        draft.add_section(alloc, media, lines)?;
        rest = next;
    }
    Ok(())
}

// The lines up to the first `m=` line, and those from it on.
fn split_at_media<'a, 'b>(lines: &'b [TextLine<'a>]) -> (&'b [TextLine<'a>], &'b [TextLine<'a>])
    ensures front { lines_in result.0.now ≡ until_media (lines_in lines.now) }
    ensures rest { lines_in result.1.now ≡ from_media (lines_in lines.now) }
    ensures shorter { length result.1.now ≤ length lines.now }
{
    let place = first_media(lines);
    (&lines[..place], &lines[place..])
}

// The place of the first `m=` line, or the number of lines.
fn first_media(lines: &[TextLine<'_>]) -> usize
    ensures place { result ≡ position_or_len (λ l. is_media (line_in l)) lines.now }
    ensures within { result ≤ length lines.now }
{
    match media_in(lines) {
        Some(place) => place,
        None => lines.len(),
    }
}

fn media_in(lines: &[TextLine<'_>]) -> Option<usize>
    ensures { result ≡ position (λ l. is_media (line_in l)) lines.now }
{
    lines.iter().position(|line| line.is_media())
}
