//! The words of an `m=` line.
ghost use Rattle.std.specs.Prelude.{◌≡◌, option_map, IfOk};
ghost use Rattle.sdp_profile.specs.Media.{port_in, media_of_words, media_in, is_kept as kept_test};
ghost use Rattle.sdp_profile.specs.Media.{types_of, holds as holds_type, texts};

use crate::numbers::{number, payload_type};
use crate::text::{spells, without_end};
use rtp_units::OutOfMemory;
use std::alloc::Global;

/// A port, 0 to 65535, a transport, and words for payload types.
#[derive(Clone, Copy, Drop)]
pub(crate) struct MediaLine<'a> {
    pub port: u16,
    pub transport: &'a [u8],
    pub types: &'a [&'a [u8]],
}

impl<'a> MediaLine<'a> {
    /// What the words of an `m=` line say, if they have its form.
    pub fn of_words(words: &'a [&'a [u8]]) -> Option<MediaLine<'a>>
        ensures { option_map media_in result ≡ media_of_words (texts words.now) }
    {
        match words {
            [_, _, _] => None,
            [_, port, transport, types @ ..] => match port_number(port) {
                Some(port) => Some(MediaLine {
                    port,
                    transport,
                    types,
                }),
                None => None,
            },
            _ => None,
        }
    }

    /// The section is one of RTP over UDP, and not switched off.
    pub fn is_kept(&self) -> bool
        ensures { result ≡ kept_test (media_in self.now) }
    {
        self.port != 0 && (spells(self.transport, "RTP/AVP") || spells(self.transport, "RTP/AVPF"))
    }
}

// PORT or PORT/1.
fn port_number(word: &[u8]) -> Option<u16>
    ensures { result ≡ port_in word.now }
{
    match number(without_end("/1", word), 0, 65535) {
        Some(port) => Some(port as u16),
        None => None,
    }
}

/// The payload types in order, each once, where every word is one.
#[tactic(auto, unfolding(crate::specs::Media::types_of))]
pub(crate) fn payload_types(alloc: Global, words: &[&[u8]]) -> Result<Option<Vec<u8>>, OutOfMemory>
    ensures { IfOk result (λ types.
        option_map (λ pts. pts.items) types ≡ types_of (texts words.now)) }
{
    let mut types = Vec::new(alloc);
    for word in words {
        match payload_type(word) {
            Some(pt) => {
                if !holds(&types, pt) {
                    types.push(pt)?;
                }
            }
            None => return Ok(None),
        }
    }
    Ok(Some(types))
}

fn holds(types: &[u8], pt: u8) -> bool
    ensures { result ≡ holds_type types.now pt }
{
    types.iter().any(|t| *t == pt)
}
