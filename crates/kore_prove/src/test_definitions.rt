// Definitions that the tests run.

pub(crate) const TWO_STEPS: &str = r#"[]
module A
sort S{} []
symbol a{}() : S{} [constructor{}()]
symbol b{}() : S{} [constructor{}()]
symbol c{}() : S{} [constructor{}()]
axiom{} \rewrites{S{}}(\and{S{}}(a{}(),\top{S{}}()),\and{S{}}(b{}(),\top{S{}}())) []
axiom{} \rewrites{S{}}(\and{S{}}(b{}(),\top{S{}}()),\and{S{}}(c{}(),\top{S{}}())) []
endmodule []
"#;

pub(crate) const BY_PRIORITY: &str = r#"[]
module A
sort S{} []
symbol a{}() : S{} [constructor{}()]
symbol b{}() : S{} [constructor{}()]
symbol c{}() : S{} [constructor{}()]
axiom{} \rewrites{S{}}(\and{S{}}(a{}(),\top{S{}}()),\and{S{}}(b{}(),\top{S{}}())) []
axiom{} \rewrites{S{}}(\and{S{}}(a{}(),\top{S{}}()),\and{S{}}(c{}(),\top{S{}}())) [priority{}("10")]
endmodule []
"#;

pub(crate) const IN_FILE_ORDER: &str = r#"[]
module A
sort S{} []
symbol a{}() : S{} [constructor{}()]
symbol b{}() : S{} [constructor{}()]
symbol c{}() : S{} [constructor{}()]
axiom{} \rewrites{S{}}(\and{S{}}(a{}(),\top{S{}}()),\and{S{}}(b{}(),\top{S{}}())) []
axiom{} \rewrites{S{}}(\and{S{}}(a{}(),\top{S{}}()),\and{S{}}(c{}(),\top{S{}}())) []
endmodule []
"#;

pub(crate) const SAME_PAIR: &str = r#"[]
module B
sort S{} []
sort T{} []
symbol p{}() : S{} [constructor{}()]
symbol q{}() : S{} [constructor{}()]
symbol pair{}(S{},S{}) : T{} [constructor{}()]
symbol ok{}() : T{} [constructor{}()]
axiom{} \rewrites{T{}}(\and{T{}}(pair{}(X:S{},X:S{}),\top{T{}}()),\and{T{}}(ok{}(),\top{T{}}())) []
endmodule []
"#;

pub(crate) const TWO_LISTS: &str = r#"[]
module B
sort E{} []
sort L{} []
sort T{} []
symbol p{}() : E{} [constructor{}()]
symbol q{}() : E{} [constructor{}()]
symbol nil{}() : L{} [constructor{}()]
symbol cons{}(E{},L{}) : L{} [constructor{}()]
symbol both{}(L{},L{}) : T{} [constructor{}()]
symbol done{}(L{}) : T{} [constructor{}()]
axiom{} \rewrites{T{}}(\and{T{}}(both{}(cons{}(X:E{},R:L{}),D:L{}),\top{T{}}()),
  \and{T{}}(both{}(R:L{},cons{}(X:E{},D:L{})),\top{T{}}())) []
axiom{} \rewrites{T{}}(\and{T{}}(both{}(nil{}(),D:L{}),\top{T{}}()),\and{T{}}(done{}(D:L{}),\top{T{}}())) []
endmodule []
"#;

pub(crate) const NESTED_INJECTIONS: &str = r#"[]
module C
hooked-sort SortInt{} [hook{}("INT.Int")]
sort SortAExp{} []
sort SortStmt{} []
sort SortKItem{} []
sort T{} []
symbol inj{From,To}(From) : To [sortInjection{}()]
axiom{R} \exists{R}(V:SortAExp{},\equals{SortAExp{},R}(V:SortAExp{},inj{SortInt{},
  SortAExp{}}(W:SortInt{}))) [subsort{SortInt{},SortAExp{}}()]
axiom{R} \exists{R}(V:SortStmt{},\equals{SortStmt{},R}(V:SortStmt{},inj{SortAExp{},
  SortStmt{}}(W:SortAExp{}))) [subsort{SortAExp{},SortStmt{}}()]
axiom{R} \exists{R}(V:SortKItem{},\equals{SortKItem{},R}(V:SortKItem{},inj{SortAExp{},
  SortKItem{}}(W:SortAExp{}))) [subsort{SortAExp{},SortKItem{}}()]
symbol k{}(SortKItem{}) : T{} [constructor{}()]
symbol done{}(SortStmt{}) : T{} [constructor{}()]
axiom{} \rewrites{T{}}(\and{T{}}(k{}(inj{SortAExp{},SortKItem{}}(X:SortAExp{})),\top{T{}}()),
  \and{T{}}(done{}(inj{SortAExp{},SortStmt{}}(X:SortAExp{})),\top{T{}}())) []
endmodule []
"#;

pub(crate) const MEETING_INJECTIONS: &str = r#"[]
module M
sort A{} []
sort B{} []
sort C{} []
sort D{} []
sort T{} []
symbol inj{From,To}(From) : To [sortInjection{}()]
axiom{R} \exists{R}(V:B{},\equals{B{},R}(V:B{},inj{A{},B{}}(W:A{}))) [subsort{A{},B{}}()]
axiom{R} \exists{R}(V:C{},\equals{C{},R}(V:C{},inj{B{},C{}}(W:B{}))) [subsort{B{},C{}}()]
axiom{R} \exists{R}(V:D{},\equals{D{},R}(V:D{},inj{C{},D{}}(W:C{}))) [subsort{C{},D{}}()]
symbol a{}() : A{} [constructor{}()]
symbol pair{}(C{},B{}) : T{} [constructor{}()]
symbol in{}(D{}) : T{} [constructor{}()]
symbol out{}(D{},D{}) : T{} [constructor{}()]
axiom{} \rewrites{T{}}(\and{T{}}(pair{}(inj{B{},C{}}(X:B{}),X:B{}),\top{T{}}()),
  \and{T{}}(in{}(inj{C{},D{}}(inj{B{},C{}}(X:B{}))),\top{T{}}())) []
axiom{} \rewrites{T{}}(\and{T{}}(in{}(inj{C{},D{}}(Y:C{})),\top{T{}}()),
  \and{T{}}(out{}(inj{C{},D{}}(Y:C{}),inj{A{},D{}}(a{}())),\top{T{}}())) []
endmodule []
"#;

pub(crate) const INTEGER_FUNCTIONS: &str = r#"[]
module D
hooked-sort SortInt{} [hook{}("INT.Int")]
hooked-sort SortBool{} [hook{}("BOOL.Bool")]
hooked-sort SortString{} [hook{}("STRING.String")]
sort T{} []
symbol n{}(SortInt{}) : T{} [constructor{}()]
hooked-symbol add{}(SortInt{},SortInt{}) : SortInt{} [function{}(),hook{}("INT.add")]
hooked-symbol tdiv{}(SortInt{},SortInt{}) : SortInt{} [function{}(),hook{}("INT.tdiv")]
hooked-symbol tmod{}(SortInt{},SortInt{}) : SortInt{} [function{}(),hook{}("INT.tmod")]
hooked-symbol ediv{}(SortInt{},SortInt{}) : SortInt{} [function{}(),hook{}("INT.ediv")]
hooked-symbol emod{}(SortInt{},SortInt{}) : SortInt{} [function{}(),hook{}("INT.emod")]
hooked-symbol gt{}(SortInt{},SortInt{}) : SortBool{} [function{}(),hook{}("INT.gt")]
hooked-symbol len{}(SortString{}) : SortInt{} [function{}(),hook{}("STRING.length")]
endmodule []
"#;

pub(crate) const GUARDED_RULES: &str = r#"[]
module E
hooked-sort SortInt{} [hook{}("INT.Int")]
hooked-sort SortBool{} [hook{}("BOOL.Bool")]
hooked-sort SortString{} [hook{}("STRING.String")]
sort T{} []
symbol n{}(SortInt{}) : T{} [constructor{}()]
hooked-symbol add{}(SortInt{},SortInt{}) : SortInt{} [function{}(),hook{}("INT.add")]
hooked-symbol tdiv{}(SortInt{},SortInt{}) : SortInt{} [function{}(),hook{}("INT.tdiv")]
hooked-symbol tmod{}(SortInt{},SortInt{}) : SortInt{} [function{}(),hook{}("INT.tmod")]
hooked-symbol ediv{}(SortInt{},SortInt{}) : SortInt{} [function{}(),hook{}("INT.ediv")]
hooked-symbol emod{}(SortInt{},SortInt{}) : SortInt{} [function{}(),hook{}("INT.emod")]
hooked-symbol gt{}(SortInt{},SortInt{}) : SortBool{} [function{}(),hook{}("INT.gt")]
hooked-symbol len{}(SortString{}) : SortInt{} [function{}(),hook{}("STRING.length")]
symbol t{}(SortInt{}) : T{} [constructor{}()]
symbol u{}(SortInt{}) : T{} [constructor{}()]
symbol v{}(SortInt{}) : T{} [constructor{}()]
axiom{} \rewrites{T{}}(\and{T{}}(t{}(N:SortInt{}),\equals{SortBool{},T{}}(gt{}(N:SortInt{},
  \dv{SortInt{}}("10")),\dv{SortBool{}}("true"))),\and{T{}}(u{}(N:SortInt{}),\top{T{}}())) []
axiom{} \rewrites{T{}}(\and{T{}}(t{}(N:SortInt{}),\equals{SortBool{},T{}}(gt{}(\dv{SortInt{}}("10"),
  N:SortInt{}),\dv{SortBool{}}("true"))),\and{T{}}(v{}(N:SortInt{}),\top{T{}}())) []
endmodule []
"#;

pub(crate) const BLOCKED_CONDITION: &str = r#"[]
module F
hooked-sort SortInt{} [hook{}("INT.Int")]
hooked-sort SortBool{} [hook{}("BOOL.Bool")]
hooked-sort SortString{} [hook{}("STRING.String")]
sort T{} []
symbol n{}(SortInt{}) : T{} [constructor{}()]
hooked-symbol add{}(SortInt{},SortInt{}) : SortInt{} [function{}(),hook{}("INT.add")]
hooked-symbol tdiv{}(SortInt{},SortInt{}) : SortInt{} [function{}(),hook{}("INT.tdiv")]
hooked-symbol tmod{}(SortInt{},SortInt{}) : SortInt{} [function{}(),hook{}("INT.tmod")]
hooked-symbol ediv{}(SortInt{},SortInt{}) : SortInt{} [function{}(),hook{}("INT.ediv")]
hooked-symbol emod{}(SortInt{},SortInt{}) : SortInt{} [function{}(),hook{}("INT.emod")]
hooked-symbol gt{}(SortInt{},SortInt{}) : SortBool{} [function{}(),hook{}("INT.gt")]
hooked-symbol len{}(SortString{}) : SortInt{} [function{}(),hook{}("STRING.length")]
symbol t{}(SortInt{}) : T{} [constructor{}()]
symbol u{}(SortInt{}) : T{} [constructor{}()]
symbol v{}(SortInt{}) : T{} [constructor{}()]
axiom{} \rewrites{T{}}(\and{T{}}(t{}(N:SortInt{}),\equals{SortBool{},T{}}(gt{}(tdiv{}(\dv{SortInt{}}("1"),
  N:SortInt{}),\dv{SortInt{}}("0")),\dv{SortBool{}}("true"))),\and{T{}}(u{}(N:SortInt{}),\top{T{}}())) []
axiom{} \rewrites{T{}}(\and{T{}}(t{}(N:SortInt{}),\equals{SortBool{},T{}}(gt{}(\dv{SortInt{}}("10"),
  N:SortInt{}),\dv{SortBool{}}("true"))),\and{T{}}(v{}(N:SortInt{}),\top{T{}}())) []
endmodule []
"#;

pub(crate) const APPEND_LIST: &str = r#"[]
module BASIC-K
  sort SortK{} []
  sort SortKItem{} []
endmodule []
module KSEQ
  import BASIC-K []
  symbol kseq{}(SortKItem{}, SortK{}) : SortK{} [constructor{}(), functional{}(), injective{}()]
  symbol dotk{}() : SortK{} [constructor{}(), functional{}(), injective{}()]
  symbol append{}(SortK{}, SortK{}) : SortK{} [function{}(), functional{}()]
  axiom{R} \implies{R}(
    \and{R}(\top{R}(), \and{R}(\in{SortK{}, R}(X0:SortK{}, dotk{}()),
      \and{R}(\in{SortK{}, R}(X1:SortK{}, TAIL:SortK{}), \top{R}()))),
    \equals{SortK{}, R}(append{}(X0:SortK{}, X1:SortK{}),
      \and{SortK{}}(TAIL:SortK{}, \top{SortK{}}()))) []
  axiom{R} \implies{R}(
    \and{R}(\top{R}(), \and{R}(\in{SortK{}, R}(X0:SortK{}, kseq{}(K:SortKItem{}, KS:SortK{})),
      \and{R}(\in{SortK{}, R}(X1:SortK{}, TAIL:SortK{}), \top{R}()))),
    \equals{SortK{}, R}(append{}(X0:SortK{}, X1:SortK{}),
      \and{SortK{}}(kseq{}(K:SortKItem{}, append{}(KS:SortK{}, TAIL:SortK{})), \top{SortK{}}()))) []
endmodule []
module G
import KSEQ []
sort T{} []
symbol p{}() : SortKItem{} [constructor{}()]
symbol q{}() : SortKItem{} [constructor{}()]
symbol k{}(SortK{}) : T{} [constructor{}()]
endmodule []
"#;

pub(crate) const ADDITION: &str = r#"[topCellInitializer{}(Lblinit{}())]
module BASIC-K
  sort SortK{} []
  sort SortKItem{} []
endmodule []
module KSEQ
  import BASIC-K []
  symbol kseq{}(SortKItem{}, SortK{}) : SortK{} [constructor{}(), functional{}(), injective{}()]
  symbol dotk{}() : SortK{} [constructor{}(), functional{}(), injective{}()]
  symbol append{}(SortK{}, SortK{}) : SortK{} [function{}(), functional{}()]
  axiom{R} \implies{R}(
    \and{R}(\top{R}(), \and{R}(\in{SortK{}, R}(X0:SortK{}, dotk{}()),
      \and{R}(\in{SortK{}, R}(X1:SortK{}, TAIL:SortK{}), \top{R}()))),
    \equals{SortK{}, R}(append{}(X0:SortK{}, X1:SortK{}),
      \and{SortK{}}(TAIL:SortK{}, \top{SortK{}}()))) []
  axiom{R} \implies{R}(
    \and{R}(\top{R}(), \and{R}(\in{SortK{}, R}(X0:SortK{}, kseq{}(K:SortKItem{}, KS:SortK{})),
      \and{R}(\in{SortK{}, R}(X1:SortK{}, TAIL:SortK{}), \top{R}()))),
    \equals{SortK{}, R}(append{}(X0:SortK{}, X1:SortK{}),
      \and{SortK{}}(kseq{}(K:SortKItem{}, append{}(KS:SortK{}, TAIL:SortK{})), \top{SortK{}}()))) []
endmodule []
module INJ
  symbol inj{From, To}(From) : To [sortInjection{}()]
  axiom{S1, S2, S3, R} \equals{S3, R}(inj{S2, S3}(inj{S1, S2}(T:S1)), inj{S1,
  S3}(T:S1)) [simplification{}()]
endmodule []
module K
  import KSEQ []
  import INJ []
  alias weakExistsFinally{A}(A) : A where weakExistsFinally{A}(@X:A) := @X:A []
endmodule []
module SUM
  import K []
  hooked-sort SortInt{} [hasDomainValues{}(), hook{}("INT.Int")]
  hooked-sort SortMap{} [hook{}("MAP.Map")]
  sort SortExp{} []
  sort SortKCell{} []
  hooked-symbol Lbl'UndsPlus'Int'Unds'{}(SortInt{}, SortInt{}) : SortInt{} [function{}(), hook{}("INT.add"),
  total{}()]
  hooked-symbol Lbl'Unds'Map'Unds'{}(SortMap{}, SortMap{}) : SortMap{} [assoc{}(), comm{}(), function{}(),
  hook{}("MAP.concat")]
  symbol Lbl'UndsPlusUnds'{}(SortExp{}, SortExp{}) : SortExp{} [constructor{}(), functional{}(),
  injective{}()]
  symbol Lbl'-LT-'k'-GT-'{}(SortK{}) : SortKCell{} [cell{}(), constructor{}(), functional{}(),
  injective{}()]
  axiom{R} \exists{R}(Val:SortExp{}, \equals{SortExp{}, R}(Val:SortExp{}, inj{SortInt{},
  SortExp{}}(From:SortInt{}))) [subsort{SortInt{}, SortExp{}}()] // subsort
  axiom{R} \exists{R}(Val:SortKItem{}, \equals{SortKItem{}, R}(Val:SortKItem{}, inj{SortExp{},
  SortKItem{}}(From:SortExp{}))) [subsort{SortExp{}, SortKItem{}}()] // subsort
  axiom{R} \equals{SortMap{}, R}(Lbl'Unds'Map'Unds'{}(K1:SortMap{}, K2:SortMap{}),
  Lbl'Unds'Map'Unds'{}(K2:SortMap{}, K1:SortMap{})) [comm{}()]
  axiom{} \bottom{SortMap{}}() [constructor{}()] // no junk
  axiom{} \rewrites{SortKCell{}}(
    \and{SortKCell{}}(Lbl'-LT-'k'-GT-'{}(kseq{}(inj{SortExp{}, SortKItem{}}(Lbl'UndsPlusUnds'{}(
      inj{SortInt{}, SortExp{}}(VarI:SortInt{}), inj{SortInt{}, SortExp{}}(VarJ:SortInt{}))),
  VarR:SortK{})),
      \top{SortKCell{}}()),
    \and{SortKCell{}}(Lbl'-LT-'k'-GT-'{}(kseq{}(inj{SortInt{}, SortKItem{}}(
      Lbl'UndsPlus'Int'Unds'{}(VarI:SortInt{}, VarJ:SortInt{})), VarR:SortK{})),
  \top{SortKCell{}}())) [label{}("plus")]
endmodule []
"#;

pub(crate) const OTHERWISE: &str = r#"[]
module BASIC-K
  sort SortK{} []
  sort SortKItem{} []
endmodule []
module KSEQ
  import BASIC-K []
  symbol kseq{}(SortKItem{}, SortK{}) : SortK{} [constructor{}(), functional{}(), injective{}()]
  symbol dotk{}() : SortK{} [constructor{}(), functional{}(), injective{}()]
  symbol append{}(SortK{}, SortK{}) : SortK{} [function{}(), functional{}()]
  axiom{R} \implies{R}(
    \and{R}(\top{R}(), \and{R}(\in{SortK{}, R}(X0:SortK{}, dotk{}()),
      \and{R}(\in{SortK{}, R}(X1:SortK{}, TAIL:SortK{}), \top{R}()))),
    \equals{SortK{}, R}(append{}(X0:SortK{}, X1:SortK{}),
      \and{SortK{}}(TAIL:SortK{}, \top{SortK{}}()))) []
  axiom{R} \implies{R}(
    \and{R}(\top{R}(), \and{R}(\in{SortK{}, R}(X0:SortK{}, kseq{}(K:SortKItem{}, KS:SortK{})),
      \and{R}(\in{SortK{}, R}(X1:SortK{}, TAIL:SortK{}), \top{R}()))),
    \equals{SortK{}, R}(append{}(X0:SortK{}, X1:SortK{}),
      \and{SortK{}}(kseq{}(K:SortKItem{}, append{}(KS:SortK{}, TAIL:SortK{})), \top{SortK{}}()))) []
endmodule []
module INJ
  symbol inj{From, To}(From) : To [sortInjection{}()]
  axiom{S1, S2, S3, R} \equals{S3, R}(inj{S2, S3}(inj{S1, S2}(T:S1)), inj{S1,
  S3}(T:S1)) [simplification{}()]
endmodule []
module H
import KSEQ []
import INJ []
hooked-sort SortInt{} [hook{}("INT.Int")]
hooked-sort SortBool{} [hook{}("BOOL.Bool")]
sort SortId{} []
sort T{} []
axiom{R} \exists{R}(V:SortKItem{},\equals{SortKItem{},R}(V:SortKItem{},inj{SortInt{},
  SortKItem{}}(W:SortInt{}))) [subsort{SortInt{},SortKItem{}}()]
axiom{R} \exists{R}(V:SortKItem{},\equals{SortKItem{},R}(V:SortKItem{},inj{SortId{},
  SortKItem{}}(W:SortId{}))) [subsort{SortId{},SortKItem{}}()]
symbol n{}(SortBool{}) : T{} [constructor{}()]
symbol isInt{}(SortK{}) : SortBool{} [function{}(),total{}()]
axiom{R} \implies{R}(\and{R}(\top{R}(),\and{R}(\in{SortK{},R}(X0:SortK{},kseq{}(inj{SortInt{},
  SortKItem{}}(I:SortInt{}),dotk{}())),\top{R}())),\equals{SortBool{},R}(isInt{}(X0:SortK{}),
  \and{SortBool{}}(\dv{SortBool{}}("true"),\top{SortBool{}}()))) []
axiom{R} \implies{R}(\and{R}(\not{R}(\or{R}(\exists{R}(J:SortId{},\and{R}(\top{R}(),\and{R}(\in{SortK{},
  R}(X0:SortK{},kseq{}(inj{SortInt{},SortKItem{}}(J:SortId{}),dotk{}())),\top{R}()))),\bottom{R}())),
  \and{R}(\top{R}(),\and{R}(\in{SortK{},R}(X0:SortK{},G:SortK{}),\top{R}()))),\equals{SortBool{},
  R}(isInt{}(X0:SortK{}),\and{SortBool{}}(\dv{SortBool{}}("false"),\top{SortBool{}}()))) [owise{}()]
endmodule []
"#;

pub(crate) const NO_EQUATION: &str = r#"[]
module LOOP
sort S{} []
sort T{} []
symbol n{}(S{}) : T{} [constructor{}()]
symbol loop{}() : S{} [function{}()]
endmodule []
"#;

pub(crate) const LOOP: &str = r#"[]
module LOOP
sort S{} []
sort T{} []
symbol n{}(S{}) : T{} [constructor{}()]
symbol loop{}() : S{} [function{}()]
axiom{R} \equals{S{},R}(loop{}(),\and{S{}}(loop{}(),\top{S{}}())) []
endmodule []
"#;

pub(crate) const ASSOCIATIVE_LEFT: &str = r#"[] module M sort S{} [] symbol m{}(S{},S{}) : S{}
[function{}(),assoc{}()] symbol a{}() : S{} [constructor{}()] axiom{}
\rewrites{S{}}(m{}(a{}(),a{}()),a{}()) [] endmodule []"#;

pub(crate) const UNBOUND: &str = r#"[] module M sort S{} [] symbol a{}() : S{} [constructor{}()]
axiom{} \rewrites{S{}}(a{}(),X:S{}) [] endmodule []"#;

pub(crate) const CYCLE: &str = r#"[] module M sort S{} [] axiom{} \top{S{}}()
[subsort{S{},S{}}()] endmodule []"#;

pub(crate) const NO_KIND: &str = r#"[] module M sort S{} [] symbol a{}() : S{} [] axiom{}
\rewrites{S{}}(a{}(),a{}()) [] endmodule []"#;

pub(crate) const PRIORITY: &str = r#"[] module M sort S{} [] symbol a{}() : S{} [constructor{}()]
axiom{} \rewrites{S{}}(a{}(),a{}()) [priority{}("x")] endmodule []"#;

pub(crate) const COUNTING: &str = r#"[]
module A
sort S{} []
symbol a{}() : S{} [constructor{}()]
symbol b{}() : S{} [constructor{}()]
symbol c{}() : S{} [constructor{}()]
axiom{} \rewrites{S{}}(\and{S{}}(a{}(),\top{S{}}()),\and{S{}}(a{}(),\top{S{}}())) []
endmodule []
"#;

pub(crate) const HIGHER: &str = r#"[]
module R3
sort S{} []
symbol a{}() : S{} [constructor{}()]
symbol s{}(S{}) : S{} [constructor{}()]
axiom{} \rewrites{S{}}(\and{S{}}(X:S{},\top{S{}}()),\and{S{}}(s{}(X:S{}),\top{S{}}())) []
endmodule []
"#;

pub(crate) const WITH_SUCCESSOR: &str = r#"[]
module A
sort S{} []
symbol a{}() : S{} [constructor{}()]
symbol b{}() : S{} [constructor{}()]
symbol c{}() : S{} [constructor{}()]
symbol s{}(S{}) : S{} [constructor{}()]
axiom{} \rewrites{S{}}(\and{S{}}(a{}(),\top{S{}}()),\and{S{}}(b{}(),\top{S{}}())) []
axiom{} \rewrites{S{}}(\and{S{}}(b{}(),\top{S{}}()),\and{S{}}(c{}(),\top{S{}}())) []
endmodule []
"#;

pub(crate) const COUNTING_DOWN: &str = r#"[]
module D
hooked-sort SortInt{} [hook{}("INT.Int")]
hooked-sort SortBool{} [hook{}("BOOL.Bool")]
sort T{} []
symbol t{}(SortInt{}) : T{} [constructor{}()]
hooked-symbol sub{}(SortInt{},SortInt{}) : SortInt{} [function{}(),hook{}("INT.sub")]
hooked-symbol gt{}(SortInt{},SortInt{}) : SortBool{} [function{}(),hook{}("INT.gt")]
axiom{} \rewrites{T{}}(\and{T{}}(t{}(N:SortInt{}),\equals{SortBool{},T{}}(gt{}(N:SortInt{},
  \dv{SortInt{}}("0")),\dv{SortBool{}}("true"))),\and{T{}}(t{}(sub{}(N:SortInt{},
  \dv{SortInt{}}("1"))),\top{T{}}())) []
endmodule []
"#;

pub(crate) const APPENDED_LISTS: &str = r#"[]
module B
sort E{} []
sort L{} []
sort T{} []
symbol p{}() : E{} [constructor{}()]
symbol q{}() : E{} [constructor{}()]
symbol nil{}() : L{} [constructor{}()]
symbol cons{}(E{},L{}) : L{} [constructor{}()]
symbol append{}(L{},L{}) : L{} [function{}()]
symbol both{}(L{},L{}) : T{} [constructor{}()]
symbol done{}(L{}) : T{} [constructor{}()]
axiom{S} \equals{L{},S}(append{}(nil{}(),Y:L{}),\and{L{}}(Y:L{},\top{L{}}())) []
axiom{S} \equals{L{},S}(append{}(cons{}(X:E{},Z:L{}),Y:L{}),
  \and{L{}}(cons{}(X:E{},append{}(Z:L{},Y:L{})),\top{L{}}())) []
axiom{} \rewrites{T{}}(\and{T{}}(both{}(X:L{},Y:L{}),\top{T{}}()),
  \and{T{}}(done{}(append{}(X:L{},Y:L{})),\top{T{}}())) []
endmodule []
"#;

pub(crate) const WITH_FUNCTION: &str = r#"[]
module D
hooked-sort SortInt{} [hook{}("INT.Int")]
sort T{} []
symbol t{}(SortInt{}) : T{} [constructor{}()]
hooked-symbol sub{}(SortInt{},SortInt{}) : SortInt{} [function{}(),hook{}("INT.sub")]
symbol down{}(SortInt{}) : SortInt{} [function{}()]
axiom{R} \equals{SortInt{},R}(down{}(\dv{SortInt{}}("0")),
  \and{SortInt{}}(\dv{SortInt{}}("0"),\top{SortInt{}}())) []
axiom{R} \equals{SortInt{},R}(down{}(N:SortInt{}),
  \and{SortInt{}}(down{}(sub{}(N:SortInt{},\dv{SortInt{}}("1"))),\top{SortInt{}}())) []
endmodule []
"#;

/// A part of a left side has a name.
pub(crate) const NAMED_PART: &str = r#"[]
module J
sort S{} []
sort T{} []
symbol p{}() : S{} [constructor{}()]
symbol f{}(S{}) : S{} [constructor{}()]
symbol g{}(S{}) : T{} [constructor{}()]
symbol h{}(S{},S{}) : T{} [constructor{}()]
axiom{} \rewrites{T{}}(\and{T{}}(g{}(\and{S{}}(f{}(X:S{}),Y:S{})),\top{T{}}()),
  \and{T{}}(h{}(X:S{},Y:S{}),\top{T{}}())) []
endmodule []
"#;

/// Names inside of a named part, two names of one part, a name that is written first, and a name of a
/// part that has an injection and a repeated variable.
pub(crate) const NESTED_NAMES: &str = r#"[]
module N
sort A{} []
sort B{} []
sort T{} []
symbol inj{From,To}(From) : To [sortInjection{}()]
axiom{R} \exists{R}(V:B{},\equals{B{},R}(V:B{},inj{A{},B{}}(W:A{}))) [subsort{A{},B{}}()]
symbol a{}() : A{} [constructor{}()]
symbol s{}(A{}) : A{} [constructor{}()]
symbol in{}(B{},B{}) : T{} [constructor{}()]
symbol out{}(A{},A{},A{},B{},B{}) : T{} [constructor{}()]
axiom{} \rewrites{T{}}(\and{T{}}(in{}(
  inj{A{},B{}}(\and{A{}}(X:A{},s{}(\and{A{}}(\and{A{}}(s{}(Y:A{}),Z:A{}),V:A{})))),
  \and{B{}}(inj{A{},B{}}(Y:A{}),W:B{})),\top{T{}}()),
  \and{T{}}(out{}(X:A{},Z:A{},V:A{},W:B{},inj{A{},B{}}(Y:A{})),\top{T{}}())) []
endmodule []
"#;

/// Arguments of equations have named parts: of one that is written directly, and of one as kompile
/// writes it, with a condition on the name.
pub(crate) const NAMED_ARGUMENTS: &str = r#"[]
module E
hooked-sort SortInt{} [hook{}("INT.Int")]
hooked-sort SortBool{} [hook{}("BOOL.Bool")]
hooked-symbol gt{}(SortInt{},SortInt{}) : SortBool{} [hook{}("INT.gt"), function{}()]
sort L{} []
sort T{} []
symbol nil{}() : L{} [constructor{}()]
symbol cons{}(SortInt{},L{}) : L{} [constructor{}()]
symbol twice{}(L{}) : L{} [function{}()]
symbol tail{}(L{},SortInt{}) : L{} [function{}()]
symbol t{}(L{}) : T{} [constructor{}()]
axiom{S} \equals{L{},S}(twice{}(\and{L{}}(cons{}(X:SortInt{},Y:L{}),Z:L{})),
  \and{L{}}(cons{}(X:SortInt{},Z:L{}),\top{L{}}())) []
axiom{R} \implies{R}(
  \and{R}(\equals{SortBool{}, R}(gt{}(X:SortInt{}, N:SortInt{}), \dv{SortBool{}}("true")),
    \and{R}(\in{L{}, R}(X0:L{}, \and{L{}}(Z:L{}, cons{}(X:SortInt{}, \and{L{}}(cons{}(M:SortInt{}, Y:L{}), W:L{})))),
      \and{R}(\in{SortInt{}, R}(X1:SortInt{}, N:SortInt{}), \top{R}()))),
  \equals{L{}, R}(tail{}(X0:L{}, X1:SortInt{}), \and{L{}}(cons{}(M:SortInt{}, W:L{}), \top{L{}}()))) []
axiom{R} \implies{R}(
  \and{R}(\top{R}(), \and{R}(\in{L{}, R}(X0:L{}, Z:L{}),
    \and{R}(\in{SortInt{}, R}(X1:SortInt{}, N:SortInt{}), \top{R}()))),
  \equals{L{}, R}(tail{}(X0:L{}, X1:SortInt{}), \and{L{}}(Z:L{}, \top{L{}}()))) [priority{}("51")]
endmodule []
"#;
