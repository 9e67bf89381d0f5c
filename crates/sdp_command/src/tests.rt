//! Two texts in memory: the script that they make, or the text of their fault.

use crate::reading::read_described;
use rtp_io::MemoryFiles;
use std::alloc::Global;
use std::test::Fail;

// A description and a text with settings and timed lines, and the text that a run ends with.
const TEXTS: [(&[u8], &[u8], &str); 4] = [
    (
        b"v=0\nm=audio 5004 RTP/AVP 0\n",
        b"at 20 flush-start 0",
        "rtpbin: script line 1: flush\n",
    ),
    (
        b"v=0\nm=audio 5004\n",
        b"at 20 flush-start 0",
        "rtpbin: sdp line 2: media\n",
    ),
    (
        b"v=0\nm=audio 5004 RTP/AVP 0\n",
        b"set latency 20\npt 0 8 8000",
        "rtpbin: script line 2: word\n",
    ),
    (b"v=0\nm=audio 5004 RTP/AVP 0\n", b"set latency 20", "1"),
];

fn answer(alloc: Global, sdp: &[u8], times: &[u8]) -> Result<String, Fail> {
    let mut files = MemoryFiles::new(alloc)?;
    files.add(alloc, "d", sdp)?;
    files.add(alloc, "t", times)?;
    match read_described(alloc, &mut files, "d", "t") {
        Ok(script) => Ok(script.sessions.len().to_string(alloc)?),
        Err(failure) => Ok(failure.to_string(alloc)?),
    }
}

#[test]
fn texts(rt: HostRuntime) -> Result<(), Fail> {
    let alloc = rt.alloc();
    for (i, (sdp, times, text)) in TEXTS.into_iter().enumerate() {
        let told = answer(alloc, sdp, times)?;
        assert_eq!(rt; told.as_str(), text, "text at {i}");
    }
    Ok(())
}
