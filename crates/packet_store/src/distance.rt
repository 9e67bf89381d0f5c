//! Which numbers are far from the ones that came.
ghost use Rattle.std.specs.Prelude.{◌↔◌, IsTrue};
ghost use Rattle.packet_store.specs.Far.{IsFar};

/// Whether an extended sequence number is far from `top`, the greatest that came: more than `dropout` ahead of it, or more
/// than `misorder` behind it and below `next`, the first that isn't output yet. Where nothing was output `next` is `None`,
/// and every number so far behind is far.
pub fn far(top: u64, next: Option<u64>, number: u64, dropout: u16, misorder: u16) -> bool
    ensures { IsTrue result ↔ IsFar top next number dropout misorder }
{
    if number > top {
        return number - top > dropout as u64;
    }
    if top - number <= misorder as u64 {
        return false;
    }
    match next {
        None => true,
        Some(next) => number < next,
    }
}
