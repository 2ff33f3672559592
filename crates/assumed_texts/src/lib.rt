//! Whether the tokens of a statement say that something holds that a program may assume.
//!
//! `Assumed::new` makes the images of the program's rules and of the equations of its functions.
//! `Assumed::says` answers true exactly if the tokens are the text of the image of what the program
//! may assume (`specs/AssumedTexts`). It reads the tokens as a pattern. A rule or an equation is
//! found by the text of its image. What another axiom is about, which is one or two constructors or
//! some sorts, is read from the pattern. Then only one axiom can have this image, which is made and
//! compared. The rest are true facts. So the cost is that of the text and of this one image. It goes
//! up to the injection symbol of the signature for each axiom about sorts.
#![tactic(auto, using(ml_image::proofs::ImageLaws::gained_twice))]

mod assumed;
mod constructors;
mod filing;
mod shapes;
mod structure;
mod subsorts;
mod written;

pub use assumed::Assumed;
