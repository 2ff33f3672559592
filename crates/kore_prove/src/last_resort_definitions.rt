// Definitions with equations of the last resort (`owise`), for tests.

/// Whether an item is a number, as kompile writes it.
pub(crate) const IS_INT: &str = r#"[]
module BASIC-K
sort SortK{} []
sort SortKItem{} []
endmodule []
module KSEQ
import BASIC-K []
symbol kseq{}(SortKItem{}, SortK{}) : SortK{} [constructor{}()]
symbol dotk{}() : SortK{} [constructor{}()]
endmodule []
module INJ
symbol inj{From, To}(From) : To [sortInjection{}()]
endmodule []
module H
import KSEQ []
import INJ []
hooked-sort SortInt{} [hook{}("INT.Int")]
hooked-sort SortBool{} [hook{}("BOOL.Bool")]
sort SortId{} [hasDomainValues{}()]
sort T{} []
axiom{R} \exists{R}(V:SortKItem{},\equals{SortKItem{},R}(V:SortKItem{},inj{SortInt{},
  SortKItem{}}(W:SortInt{}))) [subsort{SortInt{},SortKItem{}}()]
axiom{R} \exists{R}(V:SortKItem{},\equals{SortKItem{},R}(V:SortKItem{},inj{SortId{},
  SortKItem{}}(W:SortId{}))) [subsort{SortId{},SortKItem{}}()]
symbol n{}(SortBool{}) : T{} [constructor{}()]
symbol isInt{}(SortK{}) : SortBool{} [function{}(),total{}()]
axiom{R} \implies{R}(\and{R}(\top{R}(),\and{R}(\in{SortK{},R}(X0:SortK{},kseq{}(inj{SortInt{},
  SortKItem{}}(I:SortInt{}),dotk{}())),\top{R}())),\equals{SortBool{},R}(isInt{}(X0:SortK{}),
  \and{SortBool{}}(\dv{SortBool{}}("true"),\top{SortBool{}}()))) []
axiom{R} \implies{R}(\and{R}(\not{R}(\or{R}(\exists{R}(J:SortInt{},\and{R}(\top{R}(),
  \and{R}(\in{SortK{},R}(X0:SortK{},kseq{}(inj{SortInt{},SortKItem{}}(J:SortInt{}),dotk{}())),
  \top{R}()))),\bottom{R}())),\and{R}(\top{R}(),\and{R}(\in{SortK{},R}(X0:SortK{},G:SortK{}),
  \top{R}()))),\equals{SortBool{},R}(isInt{}(X0:SortK{}),\and{SortBool{}}(\dv{SortBool{}}("false"),
  \top{SortBool{}}()))) [owise{}()]
endmodule []
"#;

/// The same, but the guard's variable has another sort. So the guard repeats no equation, and the
/// function is closed.
pub(crate) const IS_INT_OF_ANOTHER_SORT: &str = r#"[]
module BASIC-K
sort SortK{} []
sort SortKItem{} []
endmodule []
module KSEQ
import BASIC-K []
symbol kseq{}(SortKItem{}, SortK{}) : SortK{} [constructor{}()]
symbol dotk{}() : SortK{} [constructor{}()]
endmodule []
module INJ
symbol inj{From, To}(From) : To [sortInjection{}()]
endmodule []
module H
import KSEQ []
import INJ []
hooked-sort SortInt{} [hook{}("INT.Int")]
hooked-sort SortBool{} [hook{}("BOOL.Bool")]
sort SortId{} [hasDomainValues{}()]
sort T{} []
axiom{R} \exists{R}(V:SortKItem{},\equals{SortKItem{},R}(V:SortKItem{},inj{SortInt{},
  SortKItem{}}(W:SortInt{}))) [subsort{SortInt{},SortKItem{}}()]
axiom{R} \exists{R}(V:SortKItem{},\equals{SortKItem{},R}(V:SortKItem{},inj{SortId{},
  SortKItem{}}(W:SortId{}))) [subsort{SortId{},SortKItem{}}()]
symbol n{}(SortBool{}) : T{} [constructor{}()]
symbol isInt{}(SortK{}) : SortBool{} [function{}(),total{}()]
axiom{R} \implies{R}(\and{R}(\top{R}(),\and{R}(\in{SortK{},R}(X0:SortK{},kseq{}(inj{SortInt{},
  SortKItem{}}(I:SortInt{}),dotk{}())),\top{R}())),\equals{SortBool{},R}(isInt{}(X0:SortK{}),
  \and{SortBool{}}(\dv{SortBool{}}("true"),\top{SortBool{}}()))) []
axiom{R} \implies{R}(\and{R}(\not{R}(\or{R}(\exists{R}(J:SortId{},\and{R}(\top{R}(),
  \and{R}(\in{SortK{},R}(X0:SortK{},kseq{}(inj{SortInt{},SortKItem{}}(J:SortId{}),dotk{}())),
  \top{R}()))),\bottom{R}())),\and{R}(\top{R}(),\and{R}(\in{SortK{},R}(X0:SortK{},G:SortK{}),
  \top{R}()))),\equals{SortBool{},R}(isInt{}(X0:SortK{}),\and{SortBool{}}(\dv{SortBool{}}("false"),
  \top{SortBool{}}()))) [owise{}()]
endmodule []
"#;

/// Whether an item is a result, with a guard for each of three sorts. The equation of the last resort
/// comes first in the file.
pub(crate) const IS_RESULT: &str = r#"[]
module R
sort Item{} []
sort Result{} []
sort Exp{} []
sort T{} []
hooked-sort SortInt{} [hook{}("INT.Int")]
hooked-sort SortBool{} [hook{}("BOOL.Bool")]
symbol inj{From, To}(From) : To [sortInjection{}()]
axiom{R} \exists{R}(V:Result{},\equals{Result{},R}(V:Result{},inj{SortInt{},
  Result{}}(W:SortInt{}))) [subsort{SortInt{},Result{}}()]
axiom{R} \exists{R}(V:Result{},\equals{Result{},R}(V:Result{},inj{SortBool{},
  Result{}}(W:SortBool{}))) [subsort{SortBool{},Result{}}()]
axiom{R} \exists{R}(V:Exp{},\equals{Exp{},R}(V:Exp{},inj{Result{},
  Exp{}}(W:Result{}))) [subsort{Result{},Exp{}}()]
axiom{R} \exists{R}(V:Item{},\equals{Item{},R}(V:Item{},inj{Exp{},Item{}}(W:Exp{}))) [subsort{Exp{},
  Item{}}()]
symbol plus{}(Exp{},Exp{}) : Exp{} [constructor{}()]
symbol n{}(SortBool{}) : T{} [constructor{}()]
symbol isResult{}(Item{}) : SortBool{} [function{}()]
axiom{R} \implies{R}(\and{R}(\not{R}(\or{R}(
  \exists{R}(A:SortInt{},\and{R}(\top{R}(),\and{R}(\in{Item{},R}(X0:Item{},inj{SortInt{},
  Item{}}(A:SortInt{})),\top{R}()))),
  \or{R}(\exists{R}(B:SortBool{},\and{R}(\top{R}(),\and{R}(\in{Item{},R}(X0:Item{},inj{SortBool{},
  Item{}}(B:SortBool{})),\top{R}()))),
  \or{R}(\exists{R}(C:Result{},\and{R}(\top{R}(),\and{R}(\in{Item{},R}(X0:Item{},inj{Result{},
  Item{}}(C:Result{})),\top{R}()))),
  \bottom{R}())))),\and{R}(\top{R}(),\and{R}(\in{Item{},R}(X0:Item{},G:Item{}),\top{R}()))),
  \equals{SortBool{},R}(isResult{}(X0:Item{}),\and{SortBool{}}(\dv{SortBool{}}("false"),
  \top{SortBool{}}()))) [owise{}()]
axiom{R} \implies{R}(\and{R}(\top{R}(),\and{R}(\in{Item{},R}(X0:Item{},inj{SortInt{},
  Item{}}(I:SortInt{})),\top{R}())),\equals{SortBool{},R}(isResult{}(X0:Item{}),
  \and{SortBool{}}(\dv{SortBool{}}("true"),\top{SortBool{}}()))) []
axiom{R} \implies{R}(\and{R}(\top{R}(),\and{R}(\in{Item{},R}(X0:Item{},inj{SortBool{},
  Item{}}(I:SortBool{})),\top{R}())),\equals{SortBool{},R}(isResult{}(X0:Item{}),
  \and{SortBool{}}(\dv{SortBool{}}("true"),\top{SortBool{}}()))) []
axiom{R} \implies{R}(\and{R}(\top{R}(),\and{R}(\in{Item{},R}(X0:Item{},inj{Result{},
  Item{}}(I:Result{})),\top{R}())),\equals{SortBool{},R}(isResult{}(X0:Item{}),
  \and{SortBool{}}(\dv{SortBool{}}("true"),\top{SortBool{}}()))) []
endmodule []
"#;

/// Look-up in a list: a guard with two arguments and four quantifiers, a variable that occurs in both
/// arguments, and a name. `sign` has a guard with a condition.
pub(crate) const LOOK_UP: &str = r#"[]
module L
hooked-sort SortInt{} [hook{}("INT.Int")]
hooked-sort SortBool{} [hook{}("BOOL.Bool")]
hooked-symbol gt{}(SortInt{},SortInt{}) : SortBool{} [hook{}("INT.gt"), function{}()]
sort L{} []
sort T{} []
symbol nil{}() : L{} [constructor{}()]
symbol pair{}(SortInt{},SortInt{},L{}) : L{} [constructor{}()]
symbol t{}(SortInt{}) : T{} [constructor{}()]
symbol at{}(SortInt{},L{}) : SortInt{} [function{}()]
symbol sign{}(SortInt{}) : SortInt{} [function{}()]
axiom{R} \implies{R}(\and{R}(\top{R}(),
  \and{R}(\in{SortInt{},R}(X0:SortInt{},K:SortInt{}),\and{R}(\in{L{},R}(X1:L{},
  \and{L{}}(pair{}(K:SortInt{},V:SortInt{},M:L{}),W:L{})),\top{R}()))),
  \equals{SortInt{},R}(at{}(X0:SortInt{},X1:L{}),\and{SortInt{}}(V:SortInt{},\top{SortInt{}}()))) []
axiom{R} \implies{R}(\and{R}(\not{R}(\or{R}(\exists{R}(V:SortInt{},\exists{R}(K:SortInt{},
  \exists{R}(W:L{},\exists{R}(M:L{},\and{R}(\top{R}(),
  \and{R}(\in{SortInt{},R}(X0:SortInt{},K:SortInt{}),\and{R}(\in{L{},R}(X1:L{},
  \and{L{}}(pair{}(K:SortInt{},V:SortInt{},M:L{}),W:L{})),\top{R}()))))))),\bottom{R}())),
  \and{R}(\top{R}(),\and{R}(\in{SortInt{},R}(X0:SortInt{},K:SortInt{}),\and{R}(\in{L{},R}(X1:L{},
  pair{}(J:SortInt{},V:SortInt{},M:L{})),\top{R}())))),
  \equals{SortInt{},R}(at{}(X0:SortInt{},X1:L{}),\and{SortInt{}}(at{}(K:SortInt{},M:L{}),
  \top{SortInt{}}()))) [owise{}()]
axiom{R} \implies{R}(\and{R}(\equals{SortBool{},R}(gt{}(N:SortInt{},\dv{SortInt{}}("0")),
  \dv{SortBool{}}("true")),\and{R}(\in{SortInt{},R}(X0:SortInt{},N:SortInt{}),\top{R}())),
  \equals{SortInt{},R}(sign{}(X0:SortInt{}),\and{SortInt{}}(\dv{SortInt{}}("1"),
  \top{SortInt{}}()))) []
axiom{R} \implies{R}(\and{R}(\not{R}(\or{R}(\exists{R}(N:SortInt{},\and{R}(\equals{SortBool{},
  R}(gt{}(N:SortInt{},\dv{SortInt{}}("0")),\dv{SortBool{}}("true")),\and{R}(\in{SortInt{},
  R}(X0:SortInt{},N:SortInt{}),\top{R}()))),\bottom{R}())),
  \and{R}(\top{R}(),\and{R}(\in{SortInt{},R}(X0:SortInt{},G:SortInt{}),\top{R}()))),
  \equals{SortInt{},R}(sign{}(X0:SortInt{}),\and{SortInt{}}(\dv{SortInt{}}("0"),
  \top{SortInt{}}()))) [owise{}()]
endmodule []
"#;
