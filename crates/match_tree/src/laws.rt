// Laws of trees as flat lists of nodes, and of the trees of a program.
ghost use Rattle.match_tree.specs.NodeLaws.{NodesAreTrees, NodesStay, NodeIsReplaced};
ghost use Rattle.match_tree.specs.WalkSteps.{BranchTells, OtherTells, LaterTells};
ghost use Rattle.match_tree.specs.WalkSteps.{HitMatchesByTwins, HitComesFirst};
ghost use Rattle.match_tree.specs.Spots.{TwinsAreAsked, PlacesAreResolved};
ghost use Rattle.match_tree.specs.ProgramLaws.{RuleTreeIsWide, RuleWalkTells, EquationTreeIsWide};
ghost use Rattle.match_tree.specs.ProgramLaws.{EquationWalkTells, UnmatchedEquationsAreSkipped};
ghost use Rattle.match_tree.specs.ProgramLaws.{WalkGoesOn};

/// Has no effect at run time. It states facts about flat nodes. If each node is one for its label,
/// the nodes from each place on are those of a matching tree for the label. A node stays one for
/// its label when there are more places, and may be replaced by another one for the label.
pub fn node_laws()
    ensures trees { NodesAreTrees }
    ensures stay { NodesStay }
    ensures replaced { NodeIsReplaced }
{}

/// Has no effect at run time. It states the steps of a walk: from a test to the branch of the head
/// that is there, or to the place for every other head, and from a hit to the later rows. The row
/// of a hit matches exactly if its twins agree, and is then the first that matches.
pub fn walk_laws()
    ensures branch { BranchTells }
    ensures others { OtherTells }
    ensures later { LaterTells }
    ensures twins { HitMatchesByTwins }
    ensures first { HitComesFirst }
{}

/// Has no effect at run time. It states that what a variable stands for at a hit is known by what
/// the tests have found, so that the places of a variable are compared without a look at a term.
pub fn place_laws()
    ensures asked { TwinsAreAsked }
    ensures resolved { PlacesAreResolved }
{}

/// Has no effect at run time. It states what walks over the trees of a program say of its rules and
/// equations. A walk over the tree of the rules finds the first rule, from a number on, that
/// matches the term: those before it do not match, and if it finds none, no rule from there on
/// matches. A substitution of the row matches the rule's own left side. The same holds for the
/// equations of a function. Equations that do not match may be skipped. After a hit a walk may go
/// on, at the next row.
pub fn program_laws()
    ensures goes_on { WalkGoesOn }
    ensures rule_width { RuleTreeIsWide }
    ensures rules { RuleWalkTells }
    ensures equation_width { EquationTreeIsWide }
    ensures equations { EquationWalkTells }
    ensures skipped { UnmatchedEquationsAreSkipped }
{}
