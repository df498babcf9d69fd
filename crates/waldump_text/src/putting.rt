ghost use Rattle.std.specs.Prelude.{◌≡◌, ◌-◌, ◌≤◌, length, map, replicate};
ghost use Rattle.waldump_text.specs.Put.{Puts, joined};

use segment_disk::Sink;

/// A sink that failed, with its count of faults then.
#[derive(Clone, Copy, Debug, PartialEq, Eq)]
pub struct SinkFault {
    pub faults: u64,
}

/// Puts one piece into a sink, all of it.
pub fn put<O: Sink>(out: &mut O, piece: &[u8]) -> Result<(), SinkFault>
    ensures { Puts (O.taken out.old) (O.taken out.new) (O.faults out.old)
        (O.faults out.new) piece.now result }
{
    let mut rest = piece;
    while !rest.is_empty() {
        match out.write(rest) {
            Ok(count) => rest = &rest[count..],
            Err(_) => {
                return Err(SinkFault {
                    faults: out.faults(),
                });
            }
        }
    }
    Ok(())
}

/// Puts pieces into a sink, one behind another.
pub fn put_all<O: Sink>(out: &mut O, pieces: &[&[u8]]) -> Result<(), SinkFault>
    ensures { Puts (O.taken out.old) (O.taken out.new) (O.faults out.old) (O.faults out.new)
        (joined (map (λ p. p.now) pieces.now)) result }
{
    for piece in pieces {
        put(out, piece)?;
    }
    Ok(())
}

static BLANKS: [u8; 16] = [b' '; 16];

/// The blanks that make a text of `length` bytes `width` bytes long: none where it is that long.
pub fn padding(width: usize, length: usize) -> &'static [u8]
    requires { width ≤ 16 }
    ensures { result.now ≡ replicate (width - length) 32 }
{
    &BLANKS[..width.saturating_sub(length)]
}
