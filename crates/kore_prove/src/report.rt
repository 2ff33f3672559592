// What the program writes to the error stream if a call does not print its lines.
ghost use Rattle.std.specs.Prelude.{◌≡◌, ◌≤◌, ◌++◌, [], ◌∷◌, List, ℕ, OnOk, OnErr, IsErrOf};
ghost use Rattle.std.specs.List.{flat_map};
ghost use Rattle.std.specs.Borrow.{Bor};
ghost use Rattle.desk_io.specs.Sent.{Appends};
ghost use Rattle.desk_io.specs.SinkChanges.{AppendsFront};
ghost use Rattle.desk_io.specs.Counts.{CountRose};
ghost use Rattle.kore_prove.specs.Reports.{end_code, code_after, refusal, report_line};
ghost use Rattle.kore_prove.specs.Reports.{hints_refused};
ghost use Rattle.kore_prove.specs.PlainEnds.{fault_end, plain_end};

use desk_io::{DeskFault, Sink, send_whole};
use itoa::Buffer;

/// Why a call did not print its lines.
#[derive(Clone, Copy, Debug, PartialEq, Eq)]
pub enum End<'a> {
    /// Memory ran out.
    OutOfMemory,
    /// The words are no command.
    BadWords,
    /// A file could not be read.
    ReadFault,
    /// The output could not be written.
    WriteFault,
    /// There is no file of this name.
    NoSuchFile(&'a str),
    /// The definition was refused: the number of the refusal, and the byte at which it is.
    DefinitionRefused(u8, u32),
    /// The term was refused: the number of the refusal, and the byte at which it is.
    TermRefused(u8, u32),
    /// The file of this name has more bytes than its limit.
    TooLarge(&'a str),
    /// The hints were refused: the number by which the first bad line is bad, and that line.
    HintsRefused(u8, u64),
}

impl End<'_> {
    /// The exit code.
    pub fn code(&self) -> u8
        ensures { result ≡ end_code (plain_end self.now) }
    {
        match self {
            End::OutOfMemory => 1,
            End::BadWords => 2,
            End::ReadFault => 3,
            End::WriteFault => 4,
            End::NoSuchFile(_) => 5,
            End::DefinitionRefused(..) => 6,
            End::TermRefused(..) => 7,
            End::TooLarge(_) => 8,
            End::HintsRefused(..) => 14,
        }
    }

    /// The exit code after this answer to sending the line of the end.
    pub fn code_after(&self, answer: Result<(), DeskFault>) -> u8
        ensures { result ≡ code_after (plain_end self.now) answer }
    {
        match answer {
            Err(DeskFault::Memory) => End::OutOfMemory.code(),
            _ => self.code(),
        }
    }
}

/// The end of a call after a fault in writing.
pub fn write_end<'a>(fault: DeskFault) -> End<'a>
    ensures { plain_end result ≡ fault_end fault }
{
    match fault {
        DeskFault::Failed => End::WriteFault,
        DeskFault::Memory => End::OutOfMemory,
    }
}

/// Sends the line that states why a call ended. After an error some bytes from its front, perhaps
/// none, are sent. It fails with `Failed` only if the sink counted a fault.
pub fn send_report<E: Sink>(err: &mut E, end: &End<'_>) -> Result<(), DeskFault>
    ensures sent { OnOk result (Appends
        (E.state err.old).bytes (E.state err.new).bytes (report_line (plain_end end.now))) }
    ensures prefix { OnErr result (AppendsFront
        (E.state err.old).bytes (E.state err.new).bytes (report_line (plain_end end.now))) }
    ensures failed { IsErrOf result DeskFault.Failed
        → CountRose (E.state err.old).faults (E.state err.new).faults }
    ensures counts { (E.state err.old).faults ≤ (E.state err.new).faults }
{
    match end {
        End::OutOfMemory => send_pieces(err, &["kore_prove: out of memory\n"]),
        End::BadWords => send_pieces(err, &["kore_prove: bad words\n"]),
        End::ReadFault => send_pieces(err, &["kore_prove: read fault\n"]),
        End::WriteFault => send_pieces(err, &["kore_prove: write fault\n"]),
        End::NoSuchFile(name) => send_pieces(err, &["kore_prove: no such file ", name, "\n"]),
        End::DefinitionRefused(number, byte) => {
            send_refusal(err, "kore_prove: definition", *number, *byte)
        }
        End::TermRefused(number, byte) => send_refusal(err, "kore_prove: term", *number, *byte),
        End::TooLarge(name) => send_pieces(err, &["kore_prove: too large ", name, "\n"]),
        End::HintsRefused(number, line) => send_hint_refusal(err, *number, *line),
    }
}

/// Sends what was refused, the number of the refusal and the byte at which it is.
fn send_refusal<E: Sink>(err: &mut E, what: &str, number: u8, byte: u32) -> Result<(), DeskFault>
    ensures sent { OnOk result (Appends
        (E.state err.old).bytes (E.state err.new).bytes
        (what.now ++ refusal number byte ++ 10 ∷ [])) }
    ensures prefix { OnErr result (AppendsFront
        (E.state err.old).bytes (E.state err.new).bytes
        (what.now ++ refusal number byte ++ 10 ∷ [])) }
    ensures failed { IsErrOf result DeskFault.Failed
        → CountRose (E.state err.old).faults (E.state err.new).faults }
    ensures counts { (E.state err.old).faults ≤ (E.state err.new).faults }
{
    let mut numbers = Buffer::new();
    let mut bytes = Buffer::new();
    let pieces = [
        what,
        " refused ",
        numbers.format(number),
        " at ",
        bytes.format(byte),
        "\n",
    ];
    send_pieces(err, &pieces)
}

/// Sends that hints were refused, the number of the refusal and the line at which it is.
fn send_hint_refusal<E: Sink>(err: &mut E, number: u8, line: u64) -> Result<(), DeskFault>
    ensures sent { OnOk result (Appends (E.state err.old).bytes (E.state err.new).bytes
        (report_line (hints_refused number line))) }
    ensures prefix { OnErr result (AppendsFront (E.state err.old).bytes (E.state err.new).bytes
        (report_line (hints_refused number line))) }
    ensures failed { IsErrOf result DeskFault.Failed
        → CountRose (E.state err.old).faults (E.state err.new).faults }
    ensures counts { (E.state err.old).faults ≤ (E.state err.new).faults }
{
    let mut numbers = Buffer::new();
    let mut lines = Buffer::new();
    let pieces = [
        "kore_prove: hints refused ",
        numbers.format(number),
        " at line ",
        lines.format(line),
        "\n",
    ];
    send_pieces(err, &pieces)
}

/// Sends pieces one after the other. After an error some bytes from their front, perhaps none, are
/// sent.
pub fn send_pieces<E: Sink>(err: &mut E, pieces: &[&str]) -> Result<(), DeskFault>
    ensures sent { OnOk result (Appends
        (E.state err.old).bytes (E.state err.new).bytes
        (flat_map (λ (p : Bor (List ℕ)). p.now) pieces.now)) }
    ensures prefix { OnErr result (AppendsFront
        (E.state err.old).bytes (E.state err.new).bytes
        (flat_map (λ (p : Bor (List ℕ)). p.now) pieces.now)) }
    ensures failed { IsErrOf result DeskFault.Failed
        → CountRose (E.state err.old).faults (E.state err.new).faults }
    ensures counts { (E.state err.old).faults ≤ (E.state err.new).faults }
{
    for piece in pieces {
        send_whole(err, piece.as_bytes())?;
    }
    Ok(())
}
