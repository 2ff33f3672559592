// Faults of Metamath texts.

/// A fault of a Metamath text: its kind, from 1 to 14 as `FaultKinds` lists them, and the byte at
/// which it is reported.
#[derive(Clone, Copy, PartialEq, Eq)]
pub struct MmFault {
    pub kind: u8,
    pub at: usize,
}
