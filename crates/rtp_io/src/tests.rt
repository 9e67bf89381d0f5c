//! What no contract says: that the objects work together, that their calls succeed where memory is left,
//! and that the real files and streams can be used.
use crate::host::{HostFiles, HostSink, Stream};
use crate::memory::MemoryFiles;
use crate::memory_sink::MemorySink;
use crate::outside::Files;
use crate::pull::{Pull, PullFault};
use crate::sure::{SureFiles, SureSink};
use crate::write::write_piece;
use std::fs;
use std::test::Fail;

// A file of five bytes is asked for two bytes and then four. Some call on the files fails.
#[test]
fn pulls(rt: HostRuntime) -> Result<(), Fail> {
    let alloc = rt.alloc();
    let read_fault = PullFault::ReadFault;
    let ended = PullFault::End { have: 3 };
    let cases = [
        (9, 0, 2, ended),
        (1, 0, 2, ended),
        (9, 2, 0, read_fault),
        (9, 3, 2, read_fault),
        (1, 3, 0, read_fault),
        (1, 7, 2, read_fault),
        (1, 8, 2, ended),
    ];
    for (i, (step, failing, taken, fault)) in cases.into_iter().enumerate() {
        assert!(rt; step > 0);
        let mut files = MemoryFiles::new(alloc)?;
        files.add(alloc, "five", b"abcde")?;
        files.set_step(step);
        files.fail_at(failing)?;
        assert!(rt; files.open_file("five").is_ok());
        let mut pull = Pull::new(alloc)?;
        let answer = match pull.need(&mut files, 2) {
            Err(fault) => (0, fault),
            Ok(_) => match pull.need(&mut files, 4) {
                Err(fault) => (2, fault),
                Ok(_) => (6, ended),
            },
        };
        assert_eq!(rt; answer, (taken, fault), "at {i}");
    }
    Ok(())
}

#[test]
fn writes(rt: HostRuntime) -> Result<(), Fail> {
    let alloc = rt.alloc();
    let mut failing = MemorySink::with_room(alloc, 6)?;
    failing.set_step(2);
    failing.fail_at(3)?;
    assert!(rt; write_piece(&mut failing, b"abcde").is_err());
    assert_eq!(rt; failing.bytes(), b"abcd".as_slice());

    // The last piece has no more room.
    for (room, told) in [(5, 5), (4, 0)] {
        let mut sink = MemorySink::with_room(alloc, room)?;
        assert!(rt; write_piece(&mut sink, b"abcde").is_ok());
        assert_eq!(rt; sink.bytes().len(), told, "room {room}");
        let mut sure = SureSink::with_room(alloc, room)?;
        assert!(rt; write_piece(&mut sure, b"abcde").is_ok());
        assert_eq!(rt; sure.bytes().len(), told, "room {room}");
    }

    let mut files = SureFiles::new(alloc)?;
    files.add(alloc, "one", b"abc")?;
    files.open_file("one")?;
    files.set_step(2);
    let mut buf = [0u8; 8];
    assert_eq!(rt; files.read(&mut buf)?, 2);
    assert_eq!(rt; files.left(), b"c".as_slice());
    Ok(())
}

#[test]
fn host(rt: HostRuntime) -> Result<(), Fail> {
    let alloc = rt.alloc();
    let name = "rtp_io_host_test.tmp";
    fs::write(&rt, name, b"abcde")?;
    let mut files = HostFiles::new(&rt);
    files.open_file(name)?;
    let mut buf = [0u8; 8];
    assert_eq!(rt; files.read(&mut buf)?, 5);
    assert_eq!(rt; buf[4], b'e');
    assert_eq!(rt; files.read(&mut buf)?, 0);
    fs::remove_file(&rt, name)?;
    assert!(rt; files.open_file(name).is_err());

    // A folder can be opened, but gives no bytes.
    let mut folder = HostFiles::new(&rt);
    folder.open_file(".")?;
    assert!(rt; folder.read(&mut buf).is_err());

    let mut out = HostSink::new(alloc, &rt, Stream::Output)?;
    assert!(rt; write_piece(&mut out, b"gathered\n").is_ok());
    assert!(rt; out.flush().is_ok());
    let mut err = HostSink::new(alloc, &rt, Stream::Errors)?;
    assert!(rt; write_piece(&mut err, b"at once\n").is_ok());
    assert!(rt; err.flush().is_ok());
    Ok(())
}
