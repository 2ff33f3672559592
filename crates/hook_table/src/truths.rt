// Hooks on truth values.
ghost use Rattle.std.specs.Prelude.{◌≡◌, ◌&&◌, ◌||◌, not as negation, if◌then◌else◌};

// Whether both hold.
pub fn and(a: bool, b: bool) -> bool
    ensures { result ≡ (a && b) }
{
    a && b
}

// Whether at least one holds.
pub fn or(a: bool, b: bool) -> bool
    ensures { result ≡ (a || b) }
{
    a || b
}

// Whether the second holds if the first does.
pub fn implies(a: bool, b: bool) -> bool
    ensures { result ≡ (negation a || b) }
{
    !a || b
}

// Whether it does not hold.
pub fn not(a: bool) -> bool
    ensures { result ≡ negation a }
{
    !a
}

// Whether both hold or neither does.
pub fn eq(a: bool, b: bool) -> bool
    ensures { result ≡ (if a then b else negation b) }
{
    a == b
}

// Whether exactly one of them holds.
pub fn ne(a: bool, b: bool) -> bool
    ensures { result ≡ (if a then negation b else b) }
{
    a != b
}
