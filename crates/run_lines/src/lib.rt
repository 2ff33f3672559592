// The two lines that a run is printed as.
//
// `run_lines` returns the line of the run's end (`stuck N`, `limit N` or `blocked N CAUSE NAME`)
// and the line of what the run keeps, in canonical text. They are defined in specs/Lines.antt.
#![tactic(auto)]

mod end_line;
mod lines;

pub use lines::run_lines;
