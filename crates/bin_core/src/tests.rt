//! A bin to which nothing came. What it tells of records and items is shown by the worked cases
//! over the program.
use crate::{Bin, BinLine, Lines};
use script_lang::read;
use std::test::Fail;

#[test]
fn nothing_but_the_end(rt: HostRuntime) -> Result<(), Fail> {
    let alloc = rt.alloc();
    let script = read(alloc, b"session 0 5004 5005\npt 0 96 90000\n")?;
    let mut bin = Bin::new(alloc, &script)?;
    let mut lines = Lines::new(alloc);
    bin.finish(alloc, &mut lines)?;
    assert!(rt; matches!(lines.lines(), [BinLine::Done { records: 0, .. }]));
    Ok(())
}
