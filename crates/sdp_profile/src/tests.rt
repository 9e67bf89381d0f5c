//! Descriptions by their outcomes.
use super::*;
use std::test::Fail;

// The first bad line and the word of its cause, or 0 and no word.
fn verdict(rt: &HostRuntime, text: &[u8]) -> Result<(u32, &'static str), Fail> {
    match read_description(rt.alloc(), text) {
        Ok(_) => Ok((0, "")),
        Err(SdpFault::Bad { line, cause }) => Ok((line, cause.word())),
        Err(SdpFault::Times { line, cause }) => Ok((line, cause.word())),
        Err(SdpFault::OutOfMemory) => Err(Fail::from("out of memory")),
    }
}

// The same of a description and a text with settings and timed lines.
fn both(rt: &HostRuntime, sdp: &[u8], times: &[u8]) -> Result<(u32, &'static str), Fail> {
    match read(rt.alloc(), sdp, times) {
        Ok(_) => Ok((0, "")),
        Err(SdpFault::Bad { line, cause }) => Ok((line, cause.word())),
        Err(SdpFault::Times { line, cause }) => Ok((line, cause.word())),
        Err(SdpFault::OutOfMemory) => Err(Fail::from("out of memory")),
    }
}

#[test]
fn a_video_section(rt: HostRuntime) -> Result<(), Fail> {
    let text = b"v=0\r\no=- 1 1 IN IP4 127.0.0.1\ns=-\n\nm=video 5004 RTP/AVPF 96 97\n\
        a=rtpmap:96 H264/90000\na=rtpmap:97 rtx/90000\na=fmtp:97 apt=96;rtx-time=3000\n\
        a=ssrc-group:FID 287454020 1432778632\n";
    let description = read_description(rt.alloc(), text)?;
    assert_eq!(rt; description.sessions.len(), 1);
    assert_eq!(rt; description.sessions[0].rtp, 5004);
    assert_eq!(rt; description.sessions[0].rtcp, 5005);
    assert_eq!(rt; description.pts.len(), 1);
    assert_eq!(rt; description.pts[0].rate, 90000);
    assert_eq!(rt; description.rtx.len(), 1);
    assert_eq!(rt; description.rtx[0].pt, 97);
    assert_eq!(rt; description.rtx[0].apt, 96);
    assert_eq!(rt; description.fids.len(), 1);
    assert_eq!(rt; description.fids[0].rtx_ssrc, 0x55667788);
    Ok(())
}

#[test]
fn a_shared_port(rt: HostRuntime) -> Result<(), Fail> {
    let description = read_description(rt.alloc(), b"v=0\nm=audio 5004 RTP/AVP 0\na=rtcp-mux")?;
    assert_eq!(rt; description.sessions.len(), 1);
    assert_eq!(rt; description.sessions[0].rtcp, 5004);
    assert_eq!(rt; description.pts.len(), 1);
    assert_eq!(rt; description.pts[0].rate, 8000);
    Ok(())
}

#[test]
fn causes_of_lines(rt: HostRuntime) -> Result<(), Fail> {
    assert_eq!(rt; verdict(&rt, b"\n\n")?, (1, "version"));
    assert_eq!(rt; verdict(&rt, b"\nv=1\n")?, (2, "version"));
    assert_eq!(rt; verdict(&rt, b"v=0\nV=0\n")?, (2, "line"));
    assert_eq!(rt;
        verdict(&rt, b"v=0\nm=audio 5004/2 RTP/AVP 0")?,
        (2, "media")
    );
    assert_eq!(rt;
        verdict(&rt, b"v=0\nm=audio 5004 RTP/AVP 128")?,
        (2, "number")
    );
    assert_eq!(rt; verdict(&rt, b"v=0\nm=audio 0 RTP/AVP 128")?, (0, ""));
    Ok(())
}

#[test]
fn causes_of_sections(rt: HostRuntime) -> Result<(), Fail> {
    let port = b"v=0\nm=audio 5004 RTP/AVP 0\nm=audio 5005 RTP/AVP 0\n";
    assert_eq!(rt; verdict(&rt, port)?, (3, "port"));
    let apt = b"v=0\nm=audio 5004 RTP/AVP 0 97\na=rtpmap:97 RTX/8000\na=fmtp:97 apt=97\n";
    assert_eq!(rt; verdict(&rt, apt)?, (3, "apt"));
    let ssrc = b"v=0\nm=audio 5004 RTP/AVP 0\na=ssrc-group:FID 1 2\n\na=ssrc-group:FID 3 1\n";
    assert_eq!(rt; verdict(&rt, ssrc)?, (5, "ssrc"));
    Ok(())
}

#[test]
fn a_ninth_session(rt: HostRuntime) -> Result<(), Fail> {
    let text = b"v=0\nm=a 1 RTP/AVP 0\nm=a 3 RTP/AVP 0\nm=a 5 RTP/AVP 0\nm=a 7 RTP/AVP 0\n\
        m=a 9 RTP/AVP 0\nm=a 11 RTP/AVP 0\nm=a 13 RTP/AVP 0\nm=a 15 RTP/AVP 0\nm=a 17 RTP/AVP 0\n";
    assert_eq!(rt; verdict(&rt, text)?, (10, "session"));
    Ok(())
}

#[test]
fn a_pair_too_many(rt: HostRuntime) -> Result<(), Fail> {
    let mut text = String::new(rt.alloc());
    write!(text, "v=0\nm=a 1 RTP/AVP 0\n")?;
    for n in 0..65u32 {
        let first = 2 * n;
        let second = first + 1;
        write!(text, "a=ssrc-group:FID {first} {second}\n")?;
    }
    assert_eq!(rt; verdict(&rt, text.as_bytes())?, (67, "many"));
    Ok(())
}

#[test]
fn a_script(rt: HostRuntime) -> Result<(), Fail> {
    let sdp = b"v=0\nm=audio 5004 RTP/AVP 0\na=rtcp-mux\n";
    let script = read(
        rt.alloc(),
        sdp,
        b"set latency 100\nat 20 flush-start 0\nat 30 flush-stop 0\n",
    )?;
    assert_eq!(rt; script.sessions.len(), 1);
    assert_eq!(rt; script.pts.len(), 1);
    assert_eq!(rt; script.items.len(), 2);
    assert_eq!(rt; script.settings.latency, 100_000_000);
    Ok(())
}

#[test]
fn causes_of_times(rt: HostRuntime) -> Result<(), Fail> {
    assert_eq!(rt; both(&rt, b"v=1", b"foo")?, (1, "version"));
    let sdp = b"v=0\nm=audio 5004 RTP/AVP 0\n";
    assert_eq!(rt;
        both(&rt, sdp, b"set latency 100\npt 0 0 8000\n")?,
        (2, "word")
    );
    assert_eq!(rt; both(&rt, sdp, b"\nat 0 latency 1 5\n")?, (2, "session"));
    Ok(())
}
