// The priority of a rule or an equation.
ghost use Rattle.std.specs.Prelude.{◌≡◌, map, option_map, option_copied, Some};
ghost use Rattle.std.specs.Str.{all_ascii_digits};
ghost use Rattle.kore_ast.specs.Plain.{pattern_tree};
ghost use Rattle.kore_check.specs.ValueTexts.{number_of_digits as the_number};
ghost use Rattle.kore_axioms.specs.Priorities.{short_number as the_short_number};
ghost use Rattle.kore_axioms.specs.Priorities.{stated_number as the_stated_number};
ghost use Rattle.kore_axioms.specs.Priorities.{stated_priority as the_stated_priority};
ghost use Rattle.kore_axioms.specs.Priorities.{has_bad_priority as is_bad};
ghost use Rattle.kore_axioms.specs.Priorities.{priority_of as the_priority};

use kore_ast::{Pat, Text};
use kore_sig::{first_of_name, has_attribute, text_of};

/// Whether the attributes state a priority, but not by one text of one to nine digits. If several
/// attributes have that name, the first one counts.
pub fn has_bad_priority(attrs: &[Pat]) -> bool
    ensures { result ≡ is_bad (map pattern_tree attrs.now) }
{
    first_of_name(attrs, "priority").is_some_and(|attr| stated_number(attr).is_none())
}

/// The priority. If none is stated, it is 200 with the attribute `owise` and 50 without it. A rule
/// with a smaller number is tried first.
pub fn priority_of(attrs: &[Pat]) -> u32
    ensures { result ≡ the_priority (map pattern_tree attrs.now) }
{
    if let Some(attr) = first_of_name(attrs, "priority")
        && let Some(number) = stated_number(attr)
    {
        return number;
    }
    if has_attribute(attrs, "owise") {
        200
    } else {
        50
    }
}

/// The number of an attribute whose only argument is a text of one to nine digits. Returns none for
/// any other attribute.
fn stated_number(attr: &Pat) -> Option<u32>
    ensures { result ≡ the_stated_number (Some (pattern_tree attr.now)) }
{
    let text = text_of(attr)?;
    short_number(text)
}

// The greatest number of digits of a priority. A number of nine digits fits 32 bits.
const MAX_DIGITS: usize = 9;

fn short_number(text: &Text) -> Option<u32>
    ensures { result ≡ the_short_number (Some text.now) }
{
    let digits = text.as_str();
    if digits.len() > MAX_DIGITS || !all_digits(digits.as_bytes()) {
        return None;
    }
    digits.parse::<u32>().ok()
}

fn all_digits(bytes: &[u8]) -> bool
    ensures { result ≡ all_ascii_digits bytes.now }
{
    for byte in bytes {
        if !byte.is_ascii_digit() {
            return false;
        }
    }
    true
}
