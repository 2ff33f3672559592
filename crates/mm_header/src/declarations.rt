// The constants and variables of the header.

ghost use Rattle.std.specs.Prelude.{◌≡◌, map};
ghost use Rattle.mm_header.specs.HeaderTable.{type_texts};
ghost use Rattle.mm_header.specs.HeaderRows.{types_texts};

/// A variable of the header: the label of its `$f`, its typecode and its name.
#[derive(Clone, Copy)]
pub struct HeaderVariable {
    pub label: &'static str,
    pub typecode: &'static str,
    pub name: &'static str,
}

/// The constants of the header, separated by spaces.
pub const CONSTANTS: &str =
    "( ) \\bot \\top \\imp \\not \\and \\or \\eq \\mem \\fun \\ex \\all \\app \\at \\next \\ev \
        #Pattern #Sort #Var #Sub #Fresh #Pred |-";

/// The names of the variables, separated by spaces.
pub const VARIABLE_NAMES: &str = "p q r t u x y s v";

/// The variables of the header, in the order of their `$f`s.
pub static VARIABLES: [HeaderVariable; 9] = [
    HeaderVariable {
        label: "fp",
        typecode: "#Pattern",
        name: "p",
    },
    HeaderVariable {
        label: "fq",
        typecode: "#Pattern",
        name: "q",
    },
    HeaderVariable {
        label: "fr",
        typecode: "#Pattern",
        name: "r",
    },
    HeaderVariable {
        label: "ft",
        typecode: "#Pattern",
        name: "t",
    },
    HeaderVariable {
        label: "fu",
        typecode: "#Pattern",
        name: "u",
    },
    HeaderVariable {
        label: "fx",
        typecode: "#Var",
        name: "x",
    },
    HeaderVariable {
        label: "fy",
        typecode: "#Var",
        name: "y",
    },
    HeaderVariable {
        label: "fs",
        typecode: "#Sort",
        name: "s",
    },
    HeaderVariable {
        label: "fv",
        typecode: "#Sort",
        name: "v",
    },
];

/// The variables of the header, in order.
pub fn variables() -> &'static [HeaderVariable; 9]
    ensures { map type_texts result.now ≡ types_texts }
{
    &VARIABLES
}
