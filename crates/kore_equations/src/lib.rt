// Equations of functions: which are readable, and what they mean.
#![tactic(auto)]

mod guards;
mod laws;
mod marks;
mod patterns;
mod readable;
mod readings;
mod same;
mod sides;
mod sorts;

pub use laws::reading_laws;
pub use marks::{mark, no_marks};
pub use readings::{Reading, read_equation, read_last_resort};
