// The rows of the header.

ghost use Rattle.std.specs.Prelude.{◌≡◌, map};
ghost use Rattle.mm_header.specs.Header.{header_rows};
ghost use Rattle.mm_header.specs.HeaderTable.{row_of};

/// A row of the header. A statement or hypothesis that does not begin with `#` says that a pattern
/// holds. Words are separated by one space.
#[derive(Clone, Copy)]
pub struct HeaderRow {
    /// The label of the row's `$a`.
    pub label: &'static str,
    /// The pairs of variables that have to stay apart: at most one.
    pub apart: &'static [(&'static str, &'static str)],
    /// The hypotheses, in order: at most two.
    pub hyps: &'static [&'static str],
    /// What the row says.
    pub statement: &'static str,
}

/// The rows of the header, in order: 16 of syntax, 16 of freshness, 15 of substitution, 11 of
/// predicates and 30 of proof.
pub static HEADER: [HeaderRow; 88] = [
    // syntax
    HeaderRow {
        label: "w.var",
        apart: &[],
        hyps: &[],
        statement: "#Pattern x",
    },
    HeaderRow {
        label: "w.bot",
        apart: &[],
        hyps: &[],
        statement: "#Pattern \\bot",
    },
    HeaderRow {
        label: "w.top",
        apart: &[],
        hyps: &[],
        statement: "#Pattern \\top",
    },
    HeaderRow {
        label: "w.imp",
        apart: &[],
        hyps: &[],
        statement: "#Pattern ( \\imp p q )",
    },
    HeaderRow {
        label: "w.and",
        apart: &[],
        hyps: &[],
        statement: "#Pattern ( \\and p q )",
    },
    HeaderRow {
        label: "w.or",
        apart: &[],
        hyps: &[],
        statement: "#Pattern ( \\or p q )",
    },
    HeaderRow {
        label: "w.eq",
        apart: &[],
        hyps: &[],
        statement: "#Pattern ( \\eq p q )",
    },
    HeaderRow {
        label: "w.mem",
        apart: &[],
        hyps: &[],
        statement: "#Pattern ( \\mem p q )",
    },
    HeaderRow {
        label: "w.app",
        apart: &[],
        hyps: &[],
        statement: "#Pattern ( \\app p q )",
    },
    HeaderRow {
        label: "w.not",
        apart: &[],
        hyps: &[],
        statement: "#Pattern ( \\not p )",
    },
    HeaderRow {
        label: "w.next",
        apart: &[],
        hyps: &[],
        statement: "#Pattern ( \\next p )",
    },
    HeaderRow {
        label: "w.ev",
        apart: &[],
        hyps: &[],
        statement: "#Pattern ( \\ev p )",
    },
    HeaderRow {
        label: "w.at",
        apart: &[],
        hyps: &[],
        statement: "#Pattern ( \\at p s )",
    },
    HeaderRow {
        label: "w.fun",
        apart: &[],
        hyps: &[],
        statement: "#Pattern ( \\fun p s )",
    },
    HeaderRow {
        label: "w.ex",
        apart: &[],
        hyps: &[],
        statement: "#Pattern ( \\ex x s p )",
    },
    HeaderRow {
        label: "w.all",
        apart: &[],
        hyps: &[],
        statement: "#Pattern ( \\all x s p )",
    },
    // freshness
    HeaderRow {
        label: "fr.d",
        apart: &[("x", "p")],
        hyps: &[],
        statement: "#Fresh x p",
    },
    HeaderRow {
        label: "fr.imp",
        apart: &[],
        hyps: &["#Fresh x p", "#Fresh x q"],
        statement: "#Fresh x ( \\imp p q )",
    },
    HeaderRow {
        label: "fr.and",
        apart: &[],
        hyps: &["#Fresh x p", "#Fresh x q"],
        statement: "#Fresh x ( \\and p q )",
    },
    HeaderRow {
        label: "fr.or",
        apart: &[],
        hyps: &["#Fresh x p", "#Fresh x q"],
        statement: "#Fresh x ( \\or p q )",
    },
    HeaderRow {
        label: "fr.eq",
        apart: &[],
        hyps: &["#Fresh x p", "#Fresh x q"],
        statement: "#Fresh x ( \\eq p q )",
    },
    HeaderRow {
        label: "fr.mem",
        apart: &[],
        hyps: &["#Fresh x p", "#Fresh x q"],
        statement: "#Fresh x ( \\mem p q )",
    },
    HeaderRow {
        label: "fr.app",
        apart: &[],
        hyps: &["#Fresh x p", "#Fresh x q"],
        statement: "#Fresh x ( \\app p q )",
    },
    HeaderRow {
        label: "fr.not",
        apart: &[],
        hyps: &["#Fresh x p"],
        statement: "#Fresh x ( \\not p )",
    },
    HeaderRow {
        label: "fr.next",
        apart: &[],
        hyps: &["#Fresh x p"],
        statement: "#Fresh x ( \\next p )",
    },
    HeaderRow {
        label: "fr.ev",
        apart: &[],
        hyps: &["#Fresh x p"],
        statement: "#Fresh x ( \\ev p )",
    },
    HeaderRow {
        label: "fr.at",
        apart: &[],
        hyps: &["#Fresh x p"],
        statement: "#Fresh x ( \\at p s )",
    },
    HeaderRow {
        label: "fr.fun",
        apart: &[],
        hyps: &["#Fresh x p"],
        statement: "#Fresh x ( \\fun p s )",
    },
    HeaderRow {
        label: "fr.ex",
        apart: &[],
        hyps: &["#Fresh x p"],
        statement: "#Fresh x ( \\ex y s p )",
    },
    HeaderRow {
        label: "fr.all",
        apart: &[],
        hyps: &["#Fresh x p"],
        statement: "#Fresh x ( \\all y s p )",
    },
    HeaderRow {
        label: "fr.exb",
        apart: &[],
        hyps: &[],
        statement: "#Fresh x ( \\ex x s p )",
    },
    HeaderRow {
        label: "fr.allb",
        apart: &[],
        hyps: &[],
        statement: "#Fresh x ( \\all x s p )",
    },
    // substitution
    HeaderRow {
        label: "su.v",
        apart: &[],
        hyps: &[],
        statement: "#Sub u x u x",
    },
    HeaderRow {
        label: "su.f",
        apart: &[],
        hyps: &["#Fresh x p"],
        statement: "#Sub p p u x",
    },
    HeaderRow {
        label: "su.imp",
        apart: &[],
        hyps: &["#Sub t p u x", "#Sub r q u x"],
        statement: "#Sub ( \\imp t r ) ( \\imp p q ) u x",
    },
    HeaderRow {
        label: "su.and",
        apart: &[],
        hyps: &["#Sub t p u x", "#Sub r q u x"],
        statement: "#Sub ( \\and t r ) ( \\and p q ) u x",
    },
    HeaderRow {
        label: "su.or",
        apart: &[],
        hyps: &["#Sub t p u x", "#Sub r q u x"],
        statement: "#Sub ( \\or t r ) ( \\or p q ) u x",
    },
    HeaderRow {
        label: "su.eq",
        apart: &[],
        hyps: &["#Sub t p u x", "#Sub r q u x"],
        statement: "#Sub ( \\eq t r ) ( \\eq p q ) u x",
    },
    HeaderRow {
        label: "su.mem",
        apart: &[],
        hyps: &["#Sub t p u x", "#Sub r q u x"],
        statement: "#Sub ( \\mem t r ) ( \\mem p q ) u x",
    },
    HeaderRow {
        label: "su.app",
        apart: &[],
        hyps: &["#Sub t p u x", "#Sub r q u x"],
        statement: "#Sub ( \\app t r ) ( \\app p q ) u x",
    },
    HeaderRow {
        label: "su.not",
        apart: &[],
        hyps: &["#Sub t p u x"],
        statement: "#Sub ( \\not t ) ( \\not p ) u x",
    },
    HeaderRow {
        label: "su.next",
        apart: &[],
        hyps: &["#Sub t p u x"],
        statement: "#Sub ( \\next t ) ( \\next p ) u x",
    },
    HeaderRow {
        label: "su.ev",
        apart: &[],
        hyps: &["#Sub t p u x"],
        statement: "#Sub ( \\ev t ) ( \\ev p ) u x",
    },
    HeaderRow {
        label: "su.at",
        apart: &[],
        hyps: &["#Sub t p u x"],
        statement: "#Sub ( \\at t s ) ( \\at p s ) u x",
    },
    HeaderRow {
        label: "su.fun",
        apart: &[],
        hyps: &["#Sub t p u x"],
        statement: "#Sub ( \\fun t s ) ( \\fun p s ) u x",
    },
    HeaderRow {
        label: "su.ex",
        apart: &[("x", "y")],
        hyps: &["#Fresh y u", "#Sub t p u x"],
        statement: "#Sub ( \\ex y s t ) ( \\ex y s p ) u x",
    },
    HeaderRow {
        label: "su.all",
        apart: &[("x", "y")],
        hyps: &["#Fresh y u", "#Sub t p u x"],
        statement: "#Sub ( \\all y s t ) ( \\all y s p ) u x",
    },
    // predicates
    HeaderRow {
        label: "pr.bot",
        apart: &[],
        hyps: &[],
        statement: "#Pred \\bot",
    },
    HeaderRow {
        label: "pr.top",
        apart: &[],
        hyps: &[],
        statement: "#Pred \\top",
    },
    HeaderRow {
        label: "pr.imp",
        apart: &[],
        hyps: &["#Pred p", "#Pred q"],
        statement: "#Pred ( \\imp p q )",
    },
    HeaderRow {
        label: "pr.and",
        apart: &[],
        hyps: &["#Pred p", "#Pred q"],
        statement: "#Pred ( \\and p q )",
    },
    HeaderRow {
        label: "pr.or",
        apart: &[],
        hyps: &["#Pred p", "#Pred q"],
        statement: "#Pred ( \\or p q )",
    },
    HeaderRow {
        label: "pr.not",
        apart: &[],
        hyps: &["#Pred p"],
        statement: "#Pred ( \\not p )",
    },
    HeaderRow {
        label: "pr.eq",
        apart: &[],
        hyps: &[],
        statement: "#Pred ( \\eq p q )",
    },
    HeaderRow {
        label: "pr.mem",
        apart: &[],
        hyps: &[],
        statement: "#Pred ( \\mem p q )",
    },
    HeaderRow {
        label: "pr.fun",
        apart: &[],
        hyps: &[],
        statement: "#Pred ( \\fun p s )",
    },
    HeaderRow {
        label: "pr.ex",
        apart: &[],
        hyps: &["#Pred p"],
        statement: "#Pred ( \\ex x s p )",
    },
    HeaderRow {
        label: "pr.all",
        apart: &[],
        hyps: &["#Pred p"],
        statement: "#Pred ( \\all x s p )",
    },
    // proof
    HeaderRow {
        label: "p.1",
        apart: &[],
        hyps: &[],
        statement: "( \\imp p ( \\imp q p ) )",
    },
    HeaderRow {
        label: "p.2",
        apart: &[],
        hyps: &[],
        statement: "( \\imp ( \\imp p ( \\imp q r ) ) ( \\imp ( \\imp p q ) ( \\imp p r ) ) )",
    },
    HeaderRow {
        label: "p.3",
        apart: &[],
        hyps: &[],
        statement: "( \\imp ( \\imp ( \\imp p \\bot ) \\bot ) p )",
    },
    HeaderRow {
        label: "mp",
        apart: &[],
        hyps: &["p", "( \\imp p q )"],
        statement: "q",
    },
    HeaderRow {
        label: "not.1",
        apart: &[],
        hyps: &[],
        statement: "( \\imp ( \\not p ) ( \\imp p \\bot ) )",
    },
    HeaderRow {
        label: "not.2",
        apart: &[],
        hyps: &[],
        statement: "( \\imp ( \\imp p \\bot ) ( \\not p ) )",
    },
    HeaderRow {
        label: "and.1",
        apart: &[],
        hyps: &[],
        statement: "( \\imp ( \\and p q ) p )",
    },
    HeaderRow {
        label: "and.2",
        apart: &[],
        hyps: &[],
        statement: "( \\imp ( \\and p q ) q )",
    },
    HeaderRow {
        label: "and.3",
        apart: &[],
        hyps: &[],
        statement: "( \\imp p ( \\imp q ( \\and p q ) ) )",
    },
    HeaderRow {
        label: "or.1",
        apart: &[],
        hyps: &[],
        statement: "( \\imp p ( \\or p q ) )",
    },
    HeaderRow {
        label: "or.2",
        apart: &[],
        hyps: &[],
        statement: "( \\imp q ( \\or p q ) )",
    },
    HeaderRow {
        label: "or.3",
        apart: &[],
        hyps: &[],
        statement: "( \\imp ( \\imp p r ) ( \\imp ( \\imp q r ) ( \\imp ( \\or p q ) r ) ) )",
    },
    HeaderRow {
        label: "top",
        apart: &[],
        hyps: &[],
        statement: "\\top",
    },
    HeaderRow {
        label: "inst",
        apart: &[],
        hyps: &["#Sub r p q x"],
        statement: "( \\imp ( \\all x s p ) ( \\imp ( \\fun q s ) r ) )",
    },
    HeaderRow {
        label: "fun.ex",
        apart: &[("y", "p")],
        hyps: &[],
        statement: "( \\imp ( \\ex y s ( \\eq y p ) ) ( \\fun p s ) )",
    },
    HeaderRow {
        label: "ex.el",
        apart: &[],
        hyps: &["( \\imp ( \\fun x s ) ( \\imp p q ) )", "#Fresh x q"],
        statement: "( \\imp ( \\ex x s p ) q )",
    },
    HeaderRow {
        label: "eq.refl",
        apart: &[],
        hyps: &[],
        statement: "( \\eq p p )",
    },
    HeaderRow {
        label: "eq.el",
        apart: &[],
        hyps: &["#Sub t r p x", "#Sub u r q x"],
        statement: "( \\imp ( \\eq p q ) ( \\imp t u ) )",
    },
    HeaderRow {
        label: "eq.in",
        apart: &[],
        hyps: &["( \\imp p q )", "( \\imp q p )"],
        statement: "( \\eq p q )",
    },
    HeaderRow {
        label: "mem.in",
        apart: &[],
        hyps: &[],
        statement: "( \\imp ( \\fun p s ) ( \\mem p p ) )",
    },
    HeaderRow {
        label: "mem.no",
        apart: &[],
        hyps: &["#Pred r", "( \\imp r ( \\not ( \\and p q ) ) )"],
        statement: "( \\imp r ( \\not ( \\mem p q ) ) )",
    },
    HeaderRow {
        label: "apart",
        apart: &[],
        hyps: &[],
        statement: "( \\imp ( \\fun p s ) ( \\imp ( \\fun q v ) ( \\imp ( \\not ( \\eq p q ) ) ( \
            \\not ( \\and p q ) ) ) ) )",
    },
    HeaderRow {
        label: "app.l",
        apart: &[],
        hyps: &["#Pred r", "( \\imp r ( \\imp p q ) )"],
        statement: "( \\imp r ( \\imp ( \\app p t ) ( \\app q t ) ) )",
    },
    HeaderRow {
        label: "app.r",
        apart: &[],
        hyps: &["#Pred r", "( \\imp r ( \\imp p q ) )"],
        statement: "( \\imp r ( \\imp ( \\app t p ) ( \\app t q ) ) )",
    },
    HeaderRow {
        label: "bot.l",
        apart: &[],
        hyps: &[],
        statement: "( \\imp ( \\app \\bot p ) \\bot )",
    },
    HeaderRow {
        label: "bot.r",
        apart: &[],
        hyps: &[],
        statement: "( \\imp ( \\app p \\bot ) \\bot )",
    },
    HeaderRow {
        label: "next.in",
        apart: &[],
        hyps: &["( \\imp p q )"],
        statement: "( \\imp ( \\next p ) ( \\next q ) )",
    },
    HeaderRow {
        label: "ev.1",
        apart: &[],
        hyps: &[],
        statement: "( \\imp p ( \\ev p ) )",
    },
    HeaderRow {
        label: "ev.2",
        apart: &[],
        hyps: &[],
        statement: "( \\imp ( \\next ( \\ev p ) ) ( \\ev p ) )",
    },
    HeaderRow {
        label: "ev.kt",
        apart: &[],
        hyps: &["( \\imp p q )", "( \\imp ( \\next q ) q )"],
        statement: "( \\imp ( \\ev p ) q )",
    },
];

/// The rows of the header, in order.
pub fn table() -> &'static [HeaderRow; 88]
    ensures { map row_of result.now ≡ header_rows }
{
    &HEADER
}
