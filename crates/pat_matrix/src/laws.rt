// Laws of rows, of positions and of heads.
ghost use Rattle.pat_matrix.specs.MatrixLaws.{CollapsedMatchesTheSame, CollapsedIsCollapsed};
ghost use Rattle.pat_matrix.specs.MatrixLaws.{CollapsedIsSorted, UntakenDoNotMatch};
ghost use Rattle.pat_matrix.specs.TreeLaws.{TreeFindsMatches, FoundMatchByTwins, AskedAreListed};
ghost use Rattle.pat_matrix.specs.TreeLaws.{ListedAreAsked};
ghost use Rattle.pat_matrix.specs.Findings.{TestedRowIsFound, PositionsAreReached};
ghost use Rattle.pat_matrix.specs.Findings.{BranchRowsFit, OtherRowsFit};

/// Has no effect at run time. It states facts about rows. Joining nested injections changes no
/// match and no sort, and leaves no injection nested. A row does not match subjects that have,
/// where it asks for a head, none that it takes: so the rows that `specialize` and `rest` leave out
/// do not match.
pub fn matrix_laws()
    ensures same { CollapsedMatchesTheSame }
    ensures collapsed { CollapsedIsCollapsed }
    ensures sorted { CollapsedIsSorted }
    ensures untaken { UntakenDoNotMatch }
{}

/// Has no effect at run time. It states that a matching tree for rows without nested injections
/// finds just the rows that match, in their order. If every head for which a row asks was found,
/// the row matches exactly if the occurrences of each variable stand for one term. Each position
/// that a row asks is listed, and no other.
pub fn tree_laws()
    ensures hits { TreeFindsMatches }
    ensures twins { FoundMatchByTwins }
    ensures listed { AskedAreListed }
    ensures asked { ListedAreAsked }
{}

/// Has no effect at run time. It states what the making of a tree rests on. If every position that
/// a row asks was tested, and the row fits what was found, every head of the row was found. The
/// first of its positions that was not tested is reached. The rows of a branch fit what was found
/// there too, and so do the rows that are left for every other head.
pub fn finding_laws()
    ensures found { TestedRowIsFound }
    ensures reached { PositionsAreReached }
    ensures branch { BranchRowsFit }
    ensures others { OtherRowsFit }
{}
