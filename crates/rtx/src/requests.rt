//! Requests that were made, and what they told of streams.
ghost use Rattle.std.specs.Prelude.{◌≡◌, ◌∷◌, [], ◌++◌, length, nat_lt, if◌then◌else◌};
ghost use Rattle.rtx.specs.Requests.{oldest, oldest_other, associated, associations_next};

use arrayvec::ArrayVec;
use circular_buffer::HeapCircularBuffer;

/// The most associations, over all sessions.
pub(crate) const MAX_ASSOCIATIONS: usize = 64;

/// A request for a sequence number of a stream.
#[derive(Clone, Copy, Debug, Drop)]
pub struct Request {
    pub(crate) session: u8,
    pub(crate) ssrc: u32,
    pub(crate) seq: u16,
}

/// A retransmission stream and the stream of the same session that it was found to repeat.
#[derive(Clone, Copy, Debug, Default, Drop)]
pub struct Association {
    pub(crate) session: u8,
    pub(crate) rtx_ssrc: u32,
    pub(crate) ssrc: u32,
}

/// The stream of the oldest kept request for this number.
pub(crate) fn oldest_request(
    requests: &HeapCircularBuffer<Request>,
    session: u8,
    seq: u16,
) -> Option<u32>
    ensures { result ≡ oldest requests.now.items session seq }
{
    requests
        .iter()
        .find(|request| request.session == session && request.seq == seq)
        .map(|request| request.ssrc)
}

/// The stream of the oldest kept request for this number that another stream made.
pub(crate) fn oldest_other_request(
    requests: &HeapCircularBuffer<Request>,
    session: u8,
    seq: u16,
    ssrc: u32,
) -> Option<u32>
    ensures { result ≡ oldest_other requests.now.items session seq ssrc }
{
    requests
        .iter()
        .find(|request| {
            request.session == session && request.seq == seq && request.ssrc != ssrc
        })
        .map(|request| request.ssrc)
}

/// The stream that a retransmission stream is associated with.
pub(crate) fn associated_ssrc(
    associations: &[Association],
    session: u8,
    rtx_ssrc: u32,
) -> Option<u32>
    ensures { result ≡ associated associations.now session rtx_ssrc }
{
    associations
        .iter()
        .find(|a| a.session == session && a.rtx_ssrc == rtx_ssrc)
        .map(|a| a.ssrc)
}

/// Keeps an association where fewer than 64 are kept.
pub(crate) fn associate(
    associations: &mut ArrayVec<Association, MAX_ASSOCIATIONS>,
    association: Association,
)
    ensures { associations.new.items ≡ associations_next associations.old.items association }
{
    if !associations.is_full() {
        associations.push(association);
    }
}
