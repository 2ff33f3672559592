// The signature of a definition: what the modules that count declare.
//
// `signature` returns the signature that the declarations mean (specs/Signatures.antt). Its error
// is exactly the first fault by the order of refusals (specs/SignatureFaults.antt).
// `counted_declarations` returns the declarations that count, in the order of the file
// (specs/CountedModules.antt). `has_attribute`, `first_of_name` and `text_of` read attributes
// (specs/Attributes.antt). `sort_number` finds the declared sort that a sort in the text names
// (specs/SortReferences.antt).
//
// Other crates that look for a first fault use the definitions of specs/FirstFault.antt and the
// laws of proofs/FirstLaws.antt.
#![tactic(auto)]

mod attributes;
mod counted;
mod declared_facts;
mod declaring;
mod faults;
mod kinds;
mod laws;
mod meaning;
mod names;
mod pairs;
mod references;
mod symbols;

pub use attributes::{first_of_name, has_attribute, is_said_ac, text_of};
pub use counted::counted_declarations;
pub use faults::SigFault;
pub use laws::signature_laws;
pub use meaning::signature;
pub use references::sort_number;
