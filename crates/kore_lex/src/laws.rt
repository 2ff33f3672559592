// Laws on the definitions of `specs/`.
ghost use Rattle.kore_lex.specs.TokenLaws.{EachIsToken, NoTokenAtFault, TokensAreFew, TokensCover};

/// The bytes of each token of a text are one token of its kind. There are no more tokens than
/// bytes. The text is white space, comments and its tokens in order, and nothing else, up to its
/// end or to a fault. No token starts at a fault.
pub fn token_laws()
    ensures each { EachIsToken }
    ensures few { TokensAreFew }
    ensures cover { TokensCover }
    ensures fault { NoTokenAtFault }
{}
