//! Texts and what they are: each cause, each end of each range, and the text of a whole script.

use super::*;
use rtp_units::{Fid, Mode, RtxLine};
use std::test::Fail;

// The first bad line and its word, and line 0 and no word for a script.
fn verdict(rt: &HostRuntime, text: &[u8]) -> Result<(u32, &'static str), Fail> {
    match read(rt.alloc(), text) {
        Ok(_) => Ok((0, "")),
        Err(ScriptFault::Bad { line, cause }) => Ok((line, cause.word())),
        Err(ScriptFault::OutOfMemory) => Err(Fail::from("out of memory")),
    }
}

#[test]
fn lines_and_words(rt: HostRuntime) -> Result<(), Fail> {
    assert_eq!(rt; verdict(&rt, b"")?, (0, ""));
    assert_eq!(rt;
        verdict(&rt, b"\n \t\n# a \x80 comment\n  #x\r\nset rtx on")?,
        (0, "")
    );
    assert_eq!(rt;
        verdict(&rt, b"\tset \t rtx\ton \r\n\r\nset mode none\r")?,
        (0, "")
    );
    assert_eq!(rt; verdict(&rt, b"\nset rtx on\r\r\n")?, (2, "text"));
    assert_eq!(rt; verdict(&rt, b"set rtx on\x7f")?, (1, "text"));
    assert_eq!(rt; verdict(&rt, b"set\x0brtx on")?, (1, "text"));
    assert_eq!(rt; verdict(&rt, b"\r")?, (0, ""));
    assert_eq!(rt;
        verdict(&rt, b"set latency 00000000000000000001\n")?,
        (0, "")
    );
    assert_eq!(rt;
        verdict(&rt, b"set latency 000000000000000000001\n")?,
        (1, "number")
    );
    assert_eq!(rt;
        verdict(&rt, b"set latency 18446744073709551616\n")?,
        (1, "number")
    );
    Ok(())
}

// One cause after the other, with the tests that come before it passed, or in the same line as a test that
// comes behind it.
#[test]
fn causes_of_forms(rt: HostRuntime) -> Result<(), Fail> {
    assert_eq!(rt; verdict(&rt, b"foo\x01")?, (1, "text"));
    assert_eq!(rt; verdict(&rt, b"at 1 clock\nfoo")?, (2, "word"));
    assert_eq!(rt; verdict(&rt, b"session 9 9")?, (1, "word"));
    assert_eq!(rt; verdict(&rt, b"at x jump")?, (1, "word"));
    assert_eq!(rt; verdict(&rt, b"at x clock 0")?, (1, "word"));
    assert_eq!(rt; verdict(&rt, b"at 1 clock\nset latency x")?, (2, "order"));
    assert_eq!(rt; verdict(&rt, b"fid 8 x x")?, (1, "number"));
    assert_eq!(rt; verdict(&rt, b"fid 0 1234567g 8")?, (1, "ssrc"));
    assert_eq!(rt; verdict(&rt, b"fid 0 12345678 123456789")?, (1, "ssrc"));
    assert_eq!(rt; verdict(&rt, b"set nothing x")?, (1, "word"));
    assert_eq!(rt; verdict(&rt, b"set mode off")?, (1, "word"));
    assert_eq!(rt; verdict(&rt, b"set rtx slave")?, (1, "word"));
    assert_eq!(rt; verdict(&rt, b"set ssrc 1")?, (1, "ssrc"));
    assert_eq!(rt;
        verdict(&rt, b"session 0 5004 5005\npt 0 200 90000")?,
        (2, "number")
    );
    Ok(())
}

#[test]
fn causes_behind_lines(rt: HostRuntime) -> Result<(), Fail> {
    assert_eq!(rt;
        verdict(&rt, b"session 0 1 2\nsession 0 1 2")?,
        (2, "session")
    );
    assert_eq!(rt; verdict(&rt, b"session 0 1 2\nsession 1 3 1")?, (2, "port"));
    assert_eq!(rt;
        verdict(&rt, b"session 0 1 1\npt 0 5 1\npt 0 5 2")?,
        (3, "pt")
    );
    assert_eq!(rt;
        verdict(&rt, b"session 0 1 1\npt 0 5 1\nrtx 0 6 1 5")?,
        (3, "session")
    );
    assert_eq!(rt;
        verdict(&rt, b"session 0 1 1\npt 0 5 1\nrtx 0 6 0 6")?,
        (3, "pt")
    );
    assert_eq!(rt;
        verdict(&rt, b"session 0 1 1\npt 0 5 1\nrtx 0 6 0 5\npt 0 6 1")?,
        (4, "pt")
    );
    assert_eq!(rt;
        verdict(&rt, b"session 0 1 1\nfid 0 0000000a 0000000A")?,
        (2, "ssrc")
    );
    assert_eq!(rt;
        verdict(
            &rt,
            b"session 0 1 1\nfid 0 00000001 00000002\nfid 0 00000003 00000001"
        )?,
        (3, "ssrc")
    );
    assert_eq!(rt;
        verdict(&rt, b"set latency 1\nset latency 600001")?,
        (2, "number")
    );
    assert_eq!(rt;
        verdict(&rt, b"set latency 1\nset latency 2")?,
        (2, "repeat")
    );
    assert_eq!(rt;
        verdict(&rt, b"at 2 clock\nat 1 flush-stop 0")?,
        (2, "session")
    );
    assert_eq!(rt;
        verdict(&rt, b"session 0 1 1\nat 2 clock\nat 1 flush-stop 0")?,
        (3, "order")
    );
    assert_eq!(rt;
        verdict(&rt, b"session 0 1 1\nat 2 flush-stop 0")?,
        (2, "flush")
    );
    assert_eq!(rt;
        verdict(
            &rt,
            b"session 0 1 1\nat 1 flush-start 0\nat 1 flush-start 0"
        )?,
        (3, "flush")
    );
    assert_eq!(rt;
        verdict(
            &rt,
            b"session 0 1 1\nsession 1 2 2\nat 1 flush-start 1\nat 2 flush-start 0\nat 3 clock"
        )?,
        (4, "flush")
    );
    assert_eq!(rt;
        verdict(
            &rt,
            b"session 0 1 1\nsession 1 2 2\nat 1 flush-start 1\nat 2 flush-start 0\nat 3 flush-stop 0"
        )?,
        (3, "flush")
    );
    Ok(())
}

#[test]
fn sizes(rt: HostRuntime) -> Result<(), Fail> {
    let long = vec![in rt.alloc(); b'\n'; 1_048_577]?;
    assert_eq!(rt; verdict(&rt, long.as_slice())?, (0, "size"));
    assert_eq!(rt; verdict(&rt, &long.as_slice()[1..])?, (0, ""));
    Ok(())
}

#[test]
fn many_pairs(rt: HostRuntime) -> Result<(), Fail> {
    let mut text = String::from_str(rt.alloc(), "session 0 1 1\nsession 1 2 2\n")?;
    for i in 0u32..64 {
        let pair = 2 * i + 1;
        let first = 2 * i;
        write!(text, "fid 0 {first:08x} {pair:08x}\n")?;
    }
    assert_eq!(rt; verdict(&rt, text.as_str().as_bytes())?, (0, ""));
    let equal = format!(in rt.alloc(); "{text}fid 1 00000000 00000000")?;
    assert_eq!(rt; verdict(&rt, equal.as_str().as_bytes())?, (67, "ssrc"));
    let more = format!(in rt.alloc(); "{text}fid 1 00000000 00000001")?;
    assert_eq!(rt; verdict(&rt, more.as_str().as_bytes())?, (67, "many"));
    Ok(())
}

// A line with a number, which may be from least to most.
struct Argument {
    front: &'static str,
    back: &'static str,
    least: u64,
    most: u64,
}

const fn range(front: &'static str, back: &'static str, least: u64, most: u64) -> Argument {
    Argument {
        front,
        back,
        least,
        most,
    }
}

// Behind these lines the least and the greatest number pass, and the numbers beside them are refused.
fn ends(rt: &HostRuntime, lines: &str, argument: Argument) -> Result<(), Fail> {
    let Argument {
        front,
        back,
        least,
        most,
    } = argument;
    for value in [least, most] {
        let text = format!(in rt.alloc(); "{lines}{front}{value}{back}")?;
        if verdict(rt, text.as_str().as_bytes())? != (0, "") {
            return Err(Fail::from("an end of the range is refused"));
        }
    }
    let above = format!(in rt.alloc(); "{front}{}{back}", most.saturating_add(1))?;
    let below = format!(in rt.alloc(); "{front}{}{back}", least.saturating_sub(1))?;
    if verdict(rt, above.as_str().as_bytes())? != (1, "number") {
        return Err(Fail::from("a number above the range is taken"));
    }
    if least > 0 && verdict(rt, below.as_str().as_bytes())? != (1, "number") {
        return Err(Fail::from("a number below the range is taken"));
    }
    Ok(())
}

#[test]
fn ends_of_settings(rt: HostRuntime) -> Result<(), Fail> {
    ends(&rt, "", range("set latency ", "", 0, 600_000))?;
    ends(&rt, "", range("set rtx-delay ", "", 0, 60_000))?;
    ends(&rt, "", range("set rtx-retry ", "", 1, 60_000))?;
    ends(&rt, "", range("set rtx-max ", "", 0, 255))?;
    ends(&rt, "", range("set reorder ", "", 0, 100))?;
    ends(&rt, "", range("set dropout ", "", 1, 30_000))?;
    ends(&rt, "", range("set misorder ", "", 0, 1000))?;
    ends(&rt, "", range("set probation ", "", 0, 16))?;
    ends(&rt, "", range("set faststart ", "", 0, 1000))?;
    ends(&rt, "", range("set report ", "", 0, 600_000))?;
    ends(&rt, "", range("set timeout ", "", 1, 600_000))?;
    ends(&rt, "", range("set history ", "", 1, 4096))?;
    Ok(())
}

#[test]
fn ends_of_lines(rt: HostRuntime) -> Result<(), Fail> {
    let lines = "session 0 5 5\nsession 7 6 6\npt 7 0 1\npt 7 127 1\npt 0 96 1\n";
    ends(&rt, "", range("session ", " 1 2", 0, 7))?;
    ends(&rt, "", range("session 0 ", " 2", 1, 65535))?;
    ends(&rt, "", range("session 0 1 ", "", 1, 65535))?;
    ends(&rt, lines, range("pt ", " 1 90000", 0, 7))?;
    ends(&rt, lines, range("pt 0 ", " 90000", 0, 127))?;
    ends(&rt, lines, range("pt 0 1 ", "", 1, 1_000_000))?;
    ends(&rt, lines, range("rtx ", " 1 0 96", 0, 7))?;
    ends(&rt, lines, range("rtx 0 ", " 0 96", 0, 127))?;
    ends(
        &rt,
        "session 0 5 5\nsession 7 6 6\npt 0 1 1\npt 7 1 1\n",
        range("rtx 0 2 ", " 1", 0, 7),
    )?;
    ends(&rt, lines, range("rtx 0 1 7 ", "", 0, 127))?;
    ends(&rt, lines, range("fid ", " 00000000 ffffffff", 0, 7))?;
    ends(&rt, lines, range("at ", " clock", 0, 4_294_967_295))?;
    ends(&rt, lines, range("at 0 latency ", " 5", 0, 7))?;
    ends(&rt, lines, range("at 0 latency 0 ", "", 0, 600_000))?;
    assert_eq!(rt; verdict(&rt, b"at 0 flush-start 8")?, (1, "number"));
    assert_eq!(rt; verdict(&rt, b"at 0 flush-stop 8")?, (1, "number"));
    assert_eq!(rt;
        verdict(&rt, b"session 7 1 1\nat 0 flush-start 7\nat 0 flush-stop 7")?,
        (0, "")
    );
    Ok(())
}

const TEXT: &str = "session 0 5004 5005\nsession 3 5006 5006\npt 0 96 90000\nrtx 0 97 0 96\n\
    fid 0 11223344 aabbccdd\nset latency 100\nset mode none\nset rtx on\nset rtx-delay 21\n\
    set rtx-retry 41\nset rtx-max 4\nset reorder 5\nset dropout 6\nset misorder 7\nset probation 8\n\
    set faststart 9\nset report 1000\nset timeout 10\nset history 11\nset ssrc 0000abcd\nat 0 clock\n\
    at 50 flush-start 0\nat 60 flush-stop 0\nat 60 latency 3 250\n";

#[test]
fn a_script_and_its_text(rt: HostRuntime) -> Result<(), Fail> {
    let script = read(rt.alloc(), TEXT.as_bytes())?;
    assert_eq!(rt; script.sessions.len(), 2);
    assert_eq!(rt;
        script.sessions[1],
        SessionLine {
            session: 3,
            rtp: 5006,
            rtcp: 5006
        }
    );
    assert_eq!(rt;
        script.pts.as_slice(),
        [PtLine {
            session: 0,
            pt: 96,
            rate: 90000
        }]
        .as_slice()
    );
    assert_eq!(rt;
        script.rtx.as_slice(),
        [RtxLine {
            session: 0,
            pt: 97,
            osession: 0,
            apt: 96
        }]
        .as_slice()
    );
    assert_eq!(rt;
        script.fids.as_slice(),
        [Fid {
            session: 0,
            ssrc: 0x11223344,
            rtx_ssrc: 0xaabbccdd
        }]
        .as_slice()
    );
    assert_eq!(rt; script.items.len(), 4);
    assert_eq!(rt;
        script.items[1],
        Item {
            time: 50_000_000,
            action: Action::FlushStart(0)
        }
    );
    let latency = Action::Latency {
        session: 3,
        ns: 250_000_000,
    };
    assert_eq!(rt;
        script.items[3],
        Item {
            time: 60_000_000,
            action: latency
        }
    );
    assert_eq!(rt; script.settings.mode, Mode::Plain);
    assert_eq!(rt; script.settings.timeout, 10_000_000);
    assert_eq!(rt; script.settings.ssrc, 0xabcd);
    let text = write(rt.alloc(), &script)?;
    assert_eq!(rt; text.bytes(), TEXT.as_bytes());
    Ok(())
}

// Every setting that isn't set stands in the text with its default.
#[test]
fn defaults(rt: HostRuntime) -> Result<(), Fail> {
    let script = read(
        rt.alloc(),
        b"session 0 5004 5005\npt 0 96 90000\nset latency 100\nset probation 0\n",
    )?;
    let text = write(rt.alloc(), &script)?;
    let want = "session 0 5004 5005\npt 0 96 90000\nset latency 100\nset mode slave\nset rtx off\n\
        set rtx-delay 20\nset rtx-retry 40\nset rtx-max 3\nset reorder 3\nset dropout 3000\n\
        set misorder 100\nset probation 0\nset faststart 0\nset report 0\nset timeout 25000\n\
        set history 256\nset ssrc 00000001\n";
    assert_eq!(rt; text.bytes(), want.as_bytes());
    Ok(())
}

#[test]
fn settings_and_times_of_a_session(rt: HostRuntime) -> Result<(), Fail> {
    let sessions = [SessionLine {
        session: 3,
        rtp: 5,
        rtcp: 6,
    }];
    let text = b"set latency 100\nat 5 flush-start 3\nat 6 flush-stop 3\n";
    let script = read_times(rt.alloc(), &sessions, text)?;
    assert_eq!(rt; script.sessions.len(), 1);
    assert_eq!(rt; script.items.len(), 2);
    assert_eq!(rt; script.settings.latency, 100_000_000);
    Ok(())
}
