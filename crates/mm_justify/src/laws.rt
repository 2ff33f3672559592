// Laws on what justifies a run, and the definition tried on small texts and frames.
ghost use Rattle.mm_justify.specs.CountingLaws.{AxiomCounts, DeclaredCounts, FactsAreTrue};
ghost use Rattle.mm_justify.specs.CountingLaws.{HeaderCounts};
ghost use Rattle.mm_justify.specs.CountingLaws.{TheoremCounts, TrueFactsAreFacts};
ghost use Rattle.mm_justify.specs.ImageCases.{TriedImages};
ghost use Rattle.mm_justify.specs.ImageLaws.{ImageIsClosed, SentenceHasNoMeta, SentenceIsOver};
ghost use Rattle.mm_justify.specs.LastResortCases.{TriedLastResorts};
ghost use Rattle.mm_justify.specs.JustifyingCases.{ConclusionIsNoAxiom, SmallJustifies};
ghost use Rattle.mm_justify.specs.JustifyingCases.{TriedFrames};
ghost use Rattle.mm_justify.specs.JustifyingLaws.{AxiomHasOnly, DeclaredHasOnly, HeaderHasOnly};
ghost use Rattle.mm_justify.specs.JustifyingLaws.{RunIsJustified};
ghost use Rattle.mm_justify.specs.JustifyingLaws.{TheoremFitsAnywhere, TheoremHasOnly};
ghost use Rattle.mm_justify.specs.JustifyingLaws.{TheoremJustifies};
ghost use Rattle.mm_justify.specs.StatingLaws.{ClaimsAreHolds, NamesAreNames};

/// By the definition, a small text justifies a run, and no program has an axiom that one symbol
/// reaches another. Frames of an axiom with two variables are accepted or not, as they should be.
/// The images of what seven small definitions say have the expected tokens. Two of them have an
/// equation of the last resort.
pub fn tried()
    ensures justifies { SmallJustifies }
    ensures refuses { ConclusionIsNoAxiom }
    ensures frames { TriedFrames }
    ensures images { TriedImages }
    ensures last_resorts { TriedLastResorts }
{}

/// What a writer of proof files states, it states in the words of what justifies a run: its tokens
/// of names are names, and its frame of the claim that a pattern holds says just that.
pub fn stating_laws()
    ensures names { NamesAreNames }
    ensures claims { ClaimsAreHolds }
{}

/// Take a text that fits, whose axioms are rows of the header, declarations and what a program may
/// assume. It still has only such axioms after declarations of the program's tokens, images of what
/// the program may assume, and theorems. It justifies a run of the program if its last theorem says
/// that the start reaches the end.
pub fn justifying_laws()
    ensures header { HeaderHasOnly }
    ensures declared { DeclaredHasOnly }
    ensures axiomatic { AxiomHasOnly }
    ensures theorem { TheoremHasOnly }
    ensures anywhere { TheoremFitsAnywhere }
    ensures justifies { TheoremJustifies }
    ensures run { RunIsJustified }
{}

/// The sorts and constants of the image of a sentence are among the names, and the image has no
/// pattern variables. The image of a pattern without variables is closed over the names.
pub fn image_laws()
    ensures over { SentenceIsOver }
    ensures metas { SentenceHasNoMeta }
    ensures closed { ImageIsClosed }
{}

/// What is counted in a text. A `$a` of a program is counted as a fact if and only if it has the
/// frame of a true fact on built-ins. The header has 88 statements. Each declaration, each image of
/// what a program may assume, and each theorem is one statement.
pub fn counting_laws()
    ensures facts { FactsAreTrue }
    ensures all_facts { TrueFactsAreFacts }
    ensures header { HeaderCounts }
    ensures declared { DeclaredCounts }
    ensures axiomatic { AxiomCounts }
    ensures theorem { TheoremCounts }
{}
