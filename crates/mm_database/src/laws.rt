// Laws on the definitions, and the definitions tried on small texts.
ghost use Rattle.mm_database.specs.Cases.{TriedCases};
ghost use Rattle.mm_database.specs.FrameLaws.{AppendedIsFine, AppendedStates, FaultlessIsFine};
ghost use Rattle.mm_database.specs.FrameLaws.{FineWhereActive, FirstFaultIsComputed};
ghost use Rattle.mm_database.specs.FrameLaws.{LabelsArePostorder, PlainTokensSay, ProofTokensSay};
ghost use Rattle.mm_database.specs.FrameLaws.{StacksAreForests, ValidIsFaultless, WrittenIsFine};
ghost use Rattle.mm_database.specs.Orderly.{EmptyIsOrderly, OrderlyAfter};
ghost use Rattle.mm_database.specs.Writing.{AppendedCompressed, AxiomIsFine, ClosedHasNone};
ghost use Rattle.mm_database.specs.Writing.{ContinuedLeaves, LeavesIsValid, ProofTextIsPlain};
ghost use Rattle.mm_database.specs.Writing.{TheoremIsFine};

/// On some small texts, the definitions agree with the Metamath book: on which texts are valid, and
/// on the first fault of the others. Each kind of fault occurs at least once.
pub fn tried()
    ensures cases { TriedCases }
{}

/// The steps of a normal proof build exactly the trees whose postorder they are. A stack accepts
/// exactly the steps that build trees, so the first fault can be computed with a stack. In a
/// database that has no fault, each variable has one type.
pub fn proof_laws()
    ensures labels { LabelsArePostorder }
    ensures stacks { StacksAreForests }
    ensures valid { ValidIsFaultless }
    ensures fine { FaultlessIsFine }
    ensures active { FineWhereActive }
    ensures empty { EmptyIsOrderly }
    ensures orderly { OrderlyAfter }
    ensures first_fault { FirstFaultIsComputed }
{}

/// A valid text stays valid if statements are appended that have no fault in what the text
/// declares. It then also states what they state. Written statements are read as they are written.
/// A `$p` has no fault if its proof is the text of a tree that proves it, in either notation.
pub fn database_laws()
    ensures appended { AppendedIsFine }
    ensures states { AppendedStates }
    ensures written { WrittenIsFine }
    ensures plain { PlainTokensSay }
    ensures proof { ProofTokensSay }
    ensures valid { LeavesIsValid }
    ensures continued { ContinuedLeaves }
    ensures axiom { AxiomIsFine }
    ensures theorem { TheoremIsFine }
    ensures proof_text { ProofTextIsPlain }
    ensures compressed { AppendedCompressed }
    ensures closed { ClosedHasNone }
{}
