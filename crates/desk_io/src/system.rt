// One read and one write of the system. The contracts of std say which bytes they read or wrote.
ghost use Rattle.std.specs.Prelude.{◌≡◌, ◌<◌, ◌≤◌, length, IfOk, OnOk, IsErrOf};
ghost use Rattle.std.specs.Io.KnownBytes.{ReadConsumes, WriteAppends};
ghost use Rattle.desk_io.specs.Counts.{CountRose};

use crate::desk::DeskFault;
use crate::faults::{counted, raised};
use std::io::{Read, Write};

/// Reads the next bytes of a file to the front of `buf`, and returns how many. It returns 0 only if
/// none is left. After a fault none was read. A fault is counted, except if memory ran out.
pub fn read_some<F: Read>(
    file: &mut F,
    buf: &mut [u8],
    faults: &mut u64,
) -> Result<usize, DeskFault>
    ensures within { IfOk result (λ n. n ≤ length buf.new) }
    ensures bytes { ReadConsumes (F.remaining file.old) (F.remaining file.new) result buf.new }
    ensures failed { IsErrOf result DeskFault.Failed → CountRose faults.old faults.new }
    ensures counts { faults.old ≤ faults.new }
    ensures no_fault { OnOk result (faults.new ≡ faults.old) }
{
    match file.read(buf) {
        Ok(n) => Ok(n),
        Err(error) => Err(counted(&error, faults)),
    }
}

/// Writes the first bytes of `piece`, and returns how many. It returns 0 only if the piece is
/// empty, because a write that takes none of some bytes is a fault. After a fault none was written.
/// A fault is counted, except if memory ran out.
pub fn write_some<W: Write>(
    writer: &mut W,
    piece: &[u8],
    faults: &mut u64,
) -> Result<usize, DeskFault>
    ensures within { IfOk result (λ n. n ≤ length piece.now) }
    ensures some { IfOk result (λ n. 0 < length piece.now → 0 < n) }
    ensures bytes { WriteAppends (W.contents writer.old) (W.contents writer.new) result piece.now }
    ensures failed { IsErrOf result DeskFault.Failed → CountRose faults.old faults.new }
    ensures counts { faults.old ≤ faults.new }
    ensures no_fault { OnOk result (faults.new ≡ faults.old) }
{
    match writer.write(piece) {
        Ok(0) if !piece.is_empty() => {
            *faults = raised(*faults);
            Err(DeskFault::Failed)
        }
        Ok(n) => Ok(n),
        Err(error) => Err(counted(&error, faults)),
    }
}
