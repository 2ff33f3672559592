// Where text goes.
ghost use Rattle.std.specs.Prelude.{◌≡◌, ℕ, List, ◌<◌, ◌≤◌, Option, length, take, IfOk, OnOk};
ghost use Rattle.std.specs.Prelude.{OnErr, IsErrOf};
ghost use Rattle.desk_io.specs.Sent.{Appends};
ghost use Rattle.desk_io.specs.SinkChanges.{AppendsFront, SameBytes};
ghost use Rattle.desk_io.specs.States.{SinkState};
ghost use Rattle.desk_io.specs.Counts.{CountRose};

use crate::desk::DeskFault;

/// A stream to which bytes are written.
pub trait Sink {
    // All bytes that it has taken, if it tells them, and how many faults `write` has had. This
    // count stops at 2^64 - 1.
    ghost state: { Self → SinkState };

    /// Appends the first bytes of `piece`, and returns how many. It returns 0 only if the piece is
    /// empty. After a fault nothing is appended. A call that succeeds counts no fault.
    fn write(&mut self, piece: &[u8]) -> Result<usize, DeskFault>
        ensures within { IfOk result (λ n. n ≤ length piece.now) }
        ensures some { IfOk result (λ n. 0 < length piece.now → 0 < n) }
        ensures appends { IfOk result
            (λ n. Appends (state self.old).bytes (state self.new).bytes (take n piece.now)) }
        ensures fault { OnErr result (SameBytes (state self.old).bytes (state self.new).bytes) }
        ensures failed { IsErrOf result DeskFault.Failed
            → CountRose (state self.old).faults (state self.new).faults }
        ensures counts { (state self.old).faults ≤ (state self.new).faults }
        ensures no_fault { OnOk result ((state self.new).faults ≡ (state self.old).faults) };
}

/// Appends all of `bytes`, in as many writes as the sink needs. After an error some bytes from the
/// front of `bytes`, perhaps none, are appended. A call that succeeds counts no fault.
pub fn send_whole<S: Sink>(sink: &mut S, bytes: &[u8]) -> Result<(), DeskFault>
    ensures sent { OnOk result
        (Appends (S.state sink.old).bytes (S.state sink.new).bytes bytes.now) }
    ensures prefix { OnErr result
        (AppendsFront (S.state sink.old).bytes (S.state sink.new).bytes bytes.now) }
    ensures failed { IsErrOf result DeskFault.Failed
        → CountRose (S.state sink.old).faults (S.state sink.new).faults }
    ensures counts { (S.state sink.old).faults ≤ (S.state sink.new).faults }
    ensures no_fault { OnOk result ((S.state sink.new).faults ≡ (S.state sink.old).faults) }
{
    let mut at = 0;
    while at < bytes.len() {
        at += sink.write(&bytes[at..])?;
    }
    Ok(())
}
