// One drill, byte for byte.
use crate::drill;
use std::test::Fail;

#[test]
fn writes_a_drill_of_one_step(rt: HostRuntime) -> Result<(), Fail> {
    let texts = drill(rt.alloc(), 1)?;
    let expected = "[]
module DRILL
hooked-sort SortInt{} [hook{}(\"INT.Int\")]
hooked-sort SortBool{} [hook{}(\"BOOL.Bool\")]
sort SortC{} []
sort SortS{} []
hooked-symbol add{}(SortInt{},SortInt{}) : SortInt{} [function{}(),hook{}(\"INT.add\")]
hooked-symbol ge{}(SortInt{},SortInt{}) : SortBool{} [function{}(),hook{}(\"INT.ge\")]
symbol st{}(SortC{},SortInt{}) : SortS{} [constructor{}()]
symbol c0{}() : SortC{} [constructor{}()]
symbol c1{}() : SortC{} [constructor{}()]
axiom{} \\rewrites{SortS{}}(\\and{SortS{}}(st{}(c0{}(),X:SortInt{}),\\equals{SortBool{},SortS{}}(ge{}(X:SortInt{},\
\\dv{SortInt{}}(\"0\")),\\dv{SortBool{}}(\"true\"))),\\and{SortS{}}(st{}(c1{}(),add{}(X:SortInt{},\
\\dv{SortInt{}}(\"0\"))),\\top{SortS{}}())) []
endmodule []
";
    assert_eq!(rt;
        str::from_utf8(texts.definition.as_slice()).ok(),
        Some(expected)
    );
    assert_eq!(rt;
        str::from_utf8(texts.term.as_slice()).ok(),
        Some("st{}(c0{}(),\\dv{SortInt{}}(\"0\"))\n")
    );
    Ok(())
}
