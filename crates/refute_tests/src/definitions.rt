// The definitions of the tests.

/// Pairs of towers. The left sides: one variable twice, two variables, a tower of three levels, a
/// variable alone, and another constructor.
pub(crate) const PAIRS: &str = r#"[]
module P
sort S{} []
sort T{} []
symbol p{}() : S{} [constructor{}()]
symbol q{}() : S{} [constructor{}()]
symbol s{}(S{}) : S{} [constructor{}()]
symbol pair{}(S{},S{}) : T{} [constructor{}()]
symbol ok{}() : T{} [constructor{}()]
axiom{} \rewrites{T{}}(pair{}(X:S{},X:S{}),ok{}()) []
axiom{} \rewrites{T{}}(pair{}(X:S{},Y:S{}),ok{}()) []
axiom{} \rewrites{T{}}(pair{}(X:S{},s{}(s{}(p{}()))),ok{}()) []
axiom{} \rewrites{T{}}(Z:T{},ok{}()) []
axiom{} \rewrites{T{}}(ok{}(),ok{}()) []
endmodule []
"#;

/// Numbers and identifiers are expressions, and those are items. The left sides inject variables, a
/// constructor, a value, and what is itself injected.
pub(crate) const ITEMS: &str = r#"[]
module I
hooked-sort SortInt{} [hook{}("INT.Int")]
sort SortId{} []
sort SortAExp{} []
sort SortKItem{} []
sort T{} []
symbol inj{From,To}(From) : To [sortInjection{}()]
axiom{R} \exists{R}(V:SortAExp{},\equals{SortAExp{},R}(V:SortAExp{},
  inj{SortInt{},SortAExp{}}(W:SortInt{}))) [subsort{SortInt{},SortAExp{}}()]
axiom{R} \exists{R}(V:SortAExp{},\equals{SortAExp{},R}(V:SortAExp{},
  inj{SortId{},SortAExp{}}(W:SortId{}))) [subsort{SortId{},SortAExp{}}()]
axiom{R} \exists{R}(V:SortKItem{},\equals{SortKItem{},R}(V:SortKItem{},
  inj{SortAExp{},SortKItem{}}(W:SortAExp{}))) [subsort{SortAExp{},SortKItem{}}()]
symbol a{}() : SortId{} [constructor{}()]
symbol plus{}(SortAExp{},SortAExp{}) : SortAExp{} [constructor{}()]
symbol k{}(SortKItem{},SortKItem{}) : T{} [constructor{}()]
symbol ok{}() : T{} [constructor{}()]
axiom{} \rewrites{T{}}(k{}(inj{SortId{},SortKItem{}}(X:SortId{}),Y:SortKItem{}),ok{}()) []
axiom{} \rewrites{T{}}(k{}(inj{SortAExp{},SortKItem{}}(X:SortAExp{}),inj{SortAExp{},
  SortKItem{}}(Y:SortAExp{})),ok{}()) []
axiom{} \rewrites{T{}}(k{}(inj{SortAExp{},SortKItem{}}(plus{}(X:SortAExp{},Y:SortAExp{})),
  Z:SortKItem{}),ok{}()) []
axiom{} \rewrites{T{}}(k{}(inj{SortInt{},SortKItem{}}(\dv{SortInt{}}("7")),Y:SortKItem{}),ok{}()) []
axiom{} \rewrites{T{}}(k{}(inj{SortAExp{},SortKItem{}}(inj{SortInt{},SortAExp{}}(X:SortInt{})),
  inj{SortInt{},SortKItem{}}(X:SortInt{})),ok{}()) []
endmodule []
"#;

/// Numbers and identifiers are items. The left sides are injected variables.
pub(crate) const ITEM: &str = r#"[]
module K
hooked-sort SortInt{} [hook{}("INT.Int")]
sort SortId{} []
sort SortKItem{} []
symbol inj{From,To}(From) : To [sortInjection{}()]
axiom{R} \exists{R}(V:SortKItem{},\equals{SortKItem{},R}(V:SortKItem{},
  inj{SortInt{},SortKItem{}}(W:SortInt{}))) [subsort{SortInt{},SortKItem{}}()]
axiom{R} \exists{R}(V:SortKItem{},\equals{SortKItem{},R}(V:SortKItem{},
  inj{SortId{},SortKItem{}}(W:SortId{}))) [subsort{SortId{},SortKItem{}}()]
axiom{} \rewrites{SortKItem{}}(inj{SortId{},
  SortKItem{}}(X:SortId{}),inj{SortId{},SortKItem{}}(X:SortId{})) []
axiom{} \rewrites{SortKItem{}}(inj{SortInt{},
  SortKItem{}}(X:SortInt{}),inj{SortInt{},SortKItem{}}(X:SortInt{})) []
endmodule []
"#;

/// A sort with values, constructors and injections. The left sides: another text, and a value, a
/// constructor and an injection of that sort.
pub(crate) const ROOTS: &str = r#"[]
module V
hooked-sort SortInt{} [hook{}("INT.Int")]
hooked-sort SortString{} [hook{}("STRING.String")]
sort E{} [hasDomainValues{}()]
sort A{} []
sort T{} []
symbol inj{From,To}(From) : To [sortInjection{}()]
axiom{R} \exists{R}(V:E{},\equals{E{},R}(V:E{},inj{A{},E{}}(W:A{}))) [subsort{A{},E{}}()]
symbol a{}() : A{} [constructor{}()]
symbol c{}(SortInt{}) : E{} [constructor{}()]
symbol v{}(SortString{},E{}) : T{} [constructor{}()]
symbol ok{}() : T{} [constructor{}()]
axiom{} \rewrites{T{}}(v{}(\dv{SortString{}}("y"),Y:E{}),ok{}()) []
axiom{} \rewrites{T{}}(v{}(S:SortString{},\dv{E{}}("y")),ok{}()) []
axiom{} \rewrites{T{}}(v{}(S:SortString{},c{}(\dv{SortInt{}}("5"))),ok{}()) []
axiom{} \rewrites{T{}}(v{}(S:SortString{},inj{A{},E{}}(Z:A{})),ok{}()) []
endmodule []
"#;

/// Pairs. Parts of the left sides have names: one written behind its part, one before a part that
/// holds another such part, and one of a constant.
pub(crate) const NAMED: &str = r#"[]
module N
sort S{} []
sort T{} []
symbol p{}() : S{} [constructor{}()]
symbol q{}() : S{} [constructor{}()]
symbol f{}(S{}) : S{} [constructor{}()]
symbol g{}(S{},S{}) : T{} [constructor{}()]
symbol ok{}() : T{} [constructor{}()]
axiom{} \rewrites{T{}}(g{}(\and{S{}}(f{}(X:S{}),Y:S{}),Z:S{}),ok{}()) []
axiom{} \rewrites{T{}}(g{}(\and{S{}}(Y:S{},f{}(\and{S{}}(p{}(),W:S{}))),X:S{}),ok{}()) []
axiom{} \rewrites{T{}}(g{}(\and{S{}}(q{}(),Y:S{}),X:S{}),ok{}()) []
endmodule []
"#;

/// Truth values that are computed.
pub(crate) const TRUTHS: &str = r#"[]
module B
hooked-sort SortInt{} [hook{}("INT.Int")]
hooked-sort SortBool{} [hook{}("BOOL.Bool")]
hooked-symbol sub{}(SortInt{},SortInt{}) : SortInt{} [function{}(),hook{}("INT.sub")]
hooked-symbol gt{}(SortInt{},SortInt{}) : SortBool{} [function{}(),hook{}("INT.gt")]
endmodule []
"#;
