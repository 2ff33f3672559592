// Laws on the definitions, and the definitions tried on small texts.
ghost use Rattle.mm_claims.specs.BlockCases.{BlockTried};
ghost use Rattle.mm_claims.specs.ClaimLaws.{NeededAreEnough, OthersAreEnough, OverNamesIsClaim};
ghost use Rattle.mm_claims.specs.ClosedLaws.{ClosedClaims, ClosedHasNoMeta, ClosedIsOver};
ghost use Rattle.mm_claims.specs.KeepingLaws.{BegunFits, DeclaredFits, EmptyFits};
ghost use Rattle.mm_claims.specs.KeepingLaws.{FitsIsCompressed};
ghost use Rattle.mm_claims.specs.LaterLaws.{AllDeclared, ClosedStays, FitsLater, LastIsStated};
ghost use Rattle.mm_claims.specs.LaterLaws.{StatedStays};
ghost use Rattle.mm_claims.specs.OpenCases.{TriedCitations};
ghost use Rattle.mm_claims.specs.OpenCiting.{CitingDerivationsAreProved, CitingIsSound};
ghost use Rattle.mm_claims.specs.OpenCiting.{ClaimsAreCited};
ghost use Rattle.mm_claims.specs.RenderedCases.{RenderedCases};
ghost use Rattle.mm_claims.specs.StatementLaws.{AxiomFits, AxiomIsGained, ClaimsAreValid};
ghost use Rattle.mm_claims.specs.StatementLaws.{ClaimsAreCompressed};
ghost use Rattle.mm_claims.specs.StatementLaws.{HeaderFitsClaims, NamesFitClaims, TheoremFits};
ghost use Rattle.mm_claims.specs.StatementLaws.{TheoremIsGained};

/// By the definitions, a small database with claims has no fault, the block of a small claim is the
/// expected one, and a small statement is cited as expected.
pub fn tried()
    ensures rendered { RenderedCases }
    ensures block { BlockTried }
    ensures citations { TriedCitations }
{}

/// A text that has declared the header, some names and some claims is valid, and each of its `$p`
/// has a compressed proof. The claims may have variables and hypotheses. The text stays valid if
/// more names, an axiom or a theorem are appended. The derivation of the theorem cites only what
/// was claimed before, at any patterns without object variables for its pattern variables. The text
/// has then declared that claim too. It has gained exactly that assertion, with its variables, its
/// hypotheses and the pairs that have to stay apart, and the typings of the variables in its block.
pub fn statement_laws()
    ensures valid { ClaimsAreValid }
    ensures compressed { ClaimsAreCompressed }
    ensures header { HeaderFitsClaims }
    ensures names { NamesFitClaims }
    ensures axiomatic { AxiomFits }
    ensures theorem { TheoremFits }
    ensures gained { AxiomIsGained }
    ensures proved { TheoremIsGained }
{}

/// A conclusion and hypotheses over declared names, with the variables that occur in them, are a
/// claim if these variables have numbers of 64 bits and there are fewer than 2^64 hypotheses. A
/// derivation can be written in a block that declares all variables that it needs, as does a block
/// that declares the variables of its claim, and then those that the derivation needs besides.
pub fn claim_laws()
    ensures claims { OverNamesIsClaim }
    ensures enough { NeededAreEnough }
    ensures others { OthersAreEnough }
{}

/// In the block of a statement, the label of a claim proves the conclusion of the claim there, over
/// proofs of what is substituted for its variables and of its hypotheses. So hypotheses, axioms and
/// lemmas are cited soundly. A derivation that cites them is written as a proof of what it
/// concludes, in every database that has them and declares what they use.
pub fn citing_laws()
    ensures cited { ClaimsAreCited }
    ensures sound { CitingIsSound }
    ensures derivations { CitingDerivationsAreProved }
{}

/// The empty text fits if nothing is kept. The header after it fits the header. A text that fits
/// still fits if the declarations of more names are appended. Each `$p` of a text that fits has a
/// compressed proof.
pub fn fitting_laws()
    ensures empty { EmptyFits }
    ensures compressed { FitsIsCompressed }
    ensures begun { BegunFits }
    ensures declared { DeclaredFits }
{}

/// When names and statements are added, a text that fits still fits, a pattern that is closed over
/// names is still closed, and a claim that was stated is still stated.
pub fn later_laws()
    ensures fits { FitsLater }
    ensures all { AllDeclared }
    ensures closed { ClosedStays }
    ensures stated { StatedStays }
    ensures last { LastIsStated }
{}

/// A pattern that is closed over names has no pattern variables, is over these names, and is a
/// claim without variables.
pub fn closed_laws()
    ensures meta { ClosedHasNoMeta }
    ensures over { ClosedIsOver }
    ensures claims { ClosedClaims }
{}
