// A call of the program on its desk and its two streams, and the exit code of the process.
ghost use Rattle.std.specs.Prelude.{◌≡◌, ℕ, List, [], IsFalse, IfOk, IsErrOf, map, string_bytes};
ghost use Rattle.std.specs.Process.{exit_status};
ghost use Rattle.kore_prove.specs.Calls.{IsAnswered};
ghost use Rattle.kore_prove.specs.Courses.{call_of};

use crate::call::{Status, kore_main, report};
use crate::report::End;
use desk_io::{Desk, Sink};
use std::alloc::Global;
use std::process::ExitCode;

/// What a call works on: the desk with its files, the output, and the error stream.
#[derive(Drop)]
pub struct Io<D: Desk, O: Sink, E: Sink> {
    pub desk: D,
    pub out: O,
    pub err: E,
}

/// Why there are no words of the command line.
#[derive(Clone, Copy, Debug, PartialEq, Eq)]
pub enum NoWords {
    /// The system did not give them.
    NotGiven,

    /// Memory ran out.
    Memory,
}

/// Does what the words ask for with this desk and these streams, as `kore_main` states, and returns
/// the exit code of its status. If the system gave no words, it does what it does with no words. If
/// memory ran out before the words were known, it reports that, whatever the words are, and returns
/// the code 1.
pub fn exit_of_call<D: Desk, O: Sink, E: Sink>(
    alloc: Global,
    words: &Result<Vec<String>, NoWords>,
    io: &mut Io<D, O, E>,
) -> ExitCode
    requires none_created { IsFalse (D.created io.old.desk) }
    ensures answered { IfOk words.now (λ given. IsAnswered (call_of
        (map string_bytes given.items) (D.state io.old.desk) (D.state io.new.desk)
        (O.state io.old.out) (O.state io.new.out) (E.state io.old.err) (E.state io.new.err))
        (exit_status result)) }
    ensures not_given { IsErrOf words.now NoWords.NotGiven → IsAnswered (call_of
        [] (D.state io.old.desk) (D.state io.new.desk) (O.state io.old.out) (O.state io.new.out)
        (E.state io.old.err) (E.state io.new.err)) (exit_status result) }
    ensures unknown { IsErrOf words.now NoWords.Memory → (given : List (List ℕ)) → IsAnswered
        (call_of given (D.state io.old.desk) (D.state io.new.desk) (O.state io.old.out)
        (O.state io.new.out) (E.state io.old.err) (E.state io.new.err)) (exit_status result) }
    ensures memory { IsErrOf words.now NoWords.Memory → exit_status result ≡ 1 }
    ensures created { D.created io.new.desk ≡ D.created io.old.desk }
{
    match words {
        Ok(given) => exit(kore_main(alloc, given, &mut io.desk, &mut io.out, &mut io.err)),
        Err(NoWords::NotGiven) => {
            exit(kore_main(alloc, &[], &mut io.desk, &mut io.out, &mut io.err))
        }
        Err(NoWords::Memory) => exit(report(&mut io.err, &End::OutOfMemory)),
    }
}

/// The exit code of a status.
fn exit(status: Status) -> ExitCode
    ensures { exit_status result ≡ status.code }
{
    ExitCode::from(status.code)
}
