// The words of the command line, read by clap.
//
// `read_words` returns what the words ask for. It returns that they are bad exactly when no command
// takes them. A command takes words if clap's definition of it does and their numbers are good.
// Which words are good is defined in specs/CommandLine.antt. What they ask for is defined in
// specs/Commands.antt.
#![tactic(auto)]

mod commands;
mod definitions;
mod numbers;
#[cfg(test)]
mod tests;

pub use commands::{CheckWords, Command, DrillWords, ProveWords, RunWords, WordsEnd, read_words};
