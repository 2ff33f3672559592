// Prints the fixed header of the databases that the program writes, so that other Metamath
// verifiers can be run on it.
#![tactic(auto)]

use mm_header::header_text;
use std::io;
use std::io::Write;

fn main(rt: HostRuntime) -> io::Result<()> {
    let mut text = Vec::new(rt.alloc());
    header_text(&mut text)?;
    rt.stdout().write_all(&text)
}
