// The two texts.
ghost use Rattle.std.specs.Prelude.{◌≡◌, ◌≤◌, ◌++◌, IfOk, OnOk};
ghost use Rattle.drill_gen.specs.Drill.{line, lines, first_lines, symbol_line, rule_line};
ghost use Rattle.drill_gen.specs.Drill.{drill_definition, drill_term};
ghost use Rattle.drill_gen.specs.Texts.{texts};

use itoa::Buffer;
use std::alloc::{AllocError, Global};

/// The two texts of a drill, in the language of Kore.
#[derive(Drop)]
pub struct DrillTexts {
    /// The definition.
    pub definition: Vec<u8>,
    /// The term that the definition runs.
    pub term: Vec<u8>,
}

/// The texts of a drill of `steps` steps, at most 1,000: a definition of about 400 bytes for each
/// step, and its term. `AllocError`: out of memory.
pub fn drill(alloc: Global, steps: u32) -> Result<DrillTexts, AllocError>
    requires { steps ≤ 1000 }
    ensures definition { IfOk result (λ made. made.definition.items ≡ drill_definition steps) }
    ensures term { IfOk result (λ made. made.term.items ≡ drill_term) }
{
    let mut definition = Vec::new(alloc);
    push_first_lines(&mut definition)?;
    for i in 0..steps + 1 {
        push_symbol_line(&mut definition, i)?;
    }
    for i in 0..steps {
        push_rule_line(&mut definition, i)?;
    }
    push_lines(&mut definition, &["endmodule []"])?;
    let mut term = Vec::new(alloc);
    push_lines(&mut term, &["st{}(c0{}(),\\dv{SortInt{}}(\"0\"))"])?;
    Ok(DrillTexts { definition, term })
}

// The declarations that every drill has.
fn push_first_lines(text: &mut Vec<u8>) -> Result<(), AllocError>
    ensures { OnOk result (text.new.items ≡ text.old.items ++ first_lines) }
{
    push_lines(
        text,
        &[
            "[]",
            "module DRILL",
            "hooked-sort SortInt{} [hook{}(\"INT.Int\")]",
            "hooked-sort SortBool{} [hook{}(\"BOOL.Bool\")]",
            "sort SortC{} []",
            "sort SortS{} []",
            "hooked-symbol add{}(SortInt{},SortInt{}) : SortInt{} [function{}(),hook{}(\"INT.add\")]",
            "hooked-symbol ge{}(SortInt{},SortInt{}) : SortBool{} [function{}(),hook{}(\"INT.ge\")]",
            "symbol st{}(SortC{},SortInt{}) : SortS{} [constructor{}()]",
        ],
    )
}

// The declaration of the symbol of a step.
fn push_symbol_line(text: &mut Vec<u8>, i: u32) -> Result<(), AllocError>
    ensures { OnOk result (text.new.items ≡ text.old.items ++ symbol_line i) }
{
    let mut digits = Buffer::new();
    let number = digits.format(i);
    push_line(
        text,
        &["symbol c", number, "{}() : SortC{} [constructor{}()]"],
    )
}

// The rule from a step to the next.
fn push_rule_line(text: &mut Vec<u8>, i: u32) -> Result<(), AllocError>
    requires { i ≤ 1000 }
    ensures { OnOk result (text.new.items ≡ text.old.items ++ rule_line i) }
{
    let mut digits = Buffer::new();
    let number = digits.format(i);
    let mut next_digits = Buffer::new();
    let next = next_digits.format(i + 1);
    push_line(
        text,
        &[
            "axiom{} \\rewrites{SortS{}}(\\and{SortS{}}(st{}(c",
            number,
            "{}(),X:SortInt{}),\\equals{SortBool{},SortS{}}(ge{}(X:SortInt{},\
                \\dv{SortInt{}}(\"0\")),",
            "\\dv{SortBool{}}(\"true\"))),\\and{SortS{}}(st{}(c",
            next,
            "{}(),add{}(X:SortInt{},\\dv{SortInt{}}(\"",
            number,
            "\"))),\\top{SortS{}}())) []",
        ],
    )
}

// Lines, each with its newline.
fn push_lines(text: &mut Vec<u8>, all: &[&str]) -> Result<(), AllocError>
    ensures { OnOk result (text.new.items ≡ text.old.items ++ lines (texts all.now)) }
{
    for one in all {
        push_line(text, &[*one])?;
    }
    Ok(())
}

// A line of these pieces, with its newline.
fn push_line(text: &mut Vec<u8>, pieces: &[&str]) -> Result<(), AllocError>
    ensures { OnOk result (text.new.items ≡ text.old.items ++ line (texts pieces.now)) }
{
    for piece in pieces {
        text.extend_from_slice(piece.as_bytes())?;
    }
    text.push(b'\n')?;
    Ok(())
}
