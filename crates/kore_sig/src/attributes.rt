// Attributes, by their names.
ghost use Rattle.std.specs.Prelude.{◌≡◌, map, option_map, option_copied};
ghost use Rattle.kore_ast.specs.Plain.{pattern_tree, plain_sort};
ghost use Rattle.kore_sig.specs.Attributes.{is_attribute_named as is_attribute};
ghost use Rattle.kore_sig.specs.Attributes.{has_attribute as has, first_of_name as first};
ghost use Rattle.kore_sig.specs.Attributes.{text_itself as the_text, only_text as the_only_text};
ghost use Rattle.kore_sig.specs.Attributes.{attribute_text as text, hook_of as hook};
ghost use Rattle.kore_sig.specs.Attributes.{is_said_ac as is_ac, stated_pair as the_pair};
ghost use Rattle.kore_sig.specs.Attributes.{subsort_sorts as pair};

use kore_ast::{Pat, PatForm, Sort, Text};

/// Whether some attribute has this name, whatever its sorts and arguments. It looks at each
/// attribute once.
pub fn has_attribute(attrs: &[Pat], name: &str) -> bool
    ensures { result ≡ has name.now (map pattern_tree attrs.now) }
{
    first_of_name(attrs, name).is_some()
}

/// The first attribute with this name, which is the one that counts. None if no attribute has the
/// name.
pub fn first_of_name<'a>(attrs: &'a [Pat], name: &str) -> Option<&'a Pat>
    ensures { option_map (λ p. pattern_tree p.now) result
        ≡ first name.now (map pattern_tree attrs.now) }
{
    for attr in attrs {
        if is_named(attr, name) {
            return Some(attr);
        }
    }
    None
}

/// Whether the pattern is an attribute with this name.
fn is_named(attr: &Pat, name: &str) -> bool
    ensures { result ≡ is_attribute name.now (pattern_tree attr.now) }
{
    match &attr.form {
        PatForm::App(own, _, _) => own.as_str() == name,
        _ => false,
    }
}

/// The text of an attribute whose only argument is a text. None for any other pattern.
pub fn text_of(attr: &Pat) -> Option<&Text>
    ensures { option_copied result ≡ text (pattern_tree attr.now) }
{
    match &attr.form {
        PatForm::App(_, _, args) => only_text(args),
        _ => None,
    }
}

fn only_text(args: &[Pat]) -> Option<&Text>
    ensures { option_copied result ≡ the_only_text (map pattern_tree args.now) }
{
    match args {
        [arg] => text_itself(arg),
        _ => None,
    }
}

fn text_itself(pat: &Pat) -> Option<&Text>
    ensures { option_copied result ≡ the_text (pattern_tree pat.now) }
{
    match &pat.form {
        PatForm::Text(text) => Some(text),
        _ => None,
    }
}

/// The name of the hook, or None if there is no hook. It is the empty text, which names no hook, if
/// the attribute has no text.
pub(crate) fn hook_of(attrs: &[Pat]) -> Option<&str>
    ensures { option_copied result ≡ hook (map pattern_tree attrs.now) }
{
    let attr = first_of_name(attrs, "hook")?;
    Some(text_of(attr).map_or("", |text| text.as_str()))
}

/// Whether some attribute says that the symbol is associative, commutative or idempotent, or has a
/// unit.
pub fn is_said_ac(attrs: &[Pat]) -> bool
    ensures { result ≡ is_ac (map pattern_tree attrs.now) }
{
    has_attribute(attrs, "assoc")
        || has_attribute(attrs, "comm")
        || has_attribute(attrs, "unit")
        || has_attribute(attrs, "idem")
}

/// The two sorts of `subsort{A,B}()`, the lower one and the upper one. None for any other pattern.
pub(crate) fn subsort_sorts(attr: &Pat) -> Option<(&Sort, &Sort)>
    ensures { option_map (λ p. (plain_sort p.0.now, plain_sort p.1.now)) result
        ≡ pair (pattern_tree attr.now) }
{
    match &attr.form {
        PatForm::App(name, sorts, args) => stated_pair(name, sorts, args),
        _ => None,
    }
}

fn stated_pair<'a>(name: &Text, sorts: &'a [Sort], args: &[Pat]) -> Option<(&'a Sort, &'a Sort)>
    ensures { option_map (λ p. (plain_sort p.0.now, plain_sort p.1.now)) result
        ≡ the_pair name.now (map plain_sort sorts.now) (map pattern_tree args.now) }
{
    match (sorts, args) {
        ([lower, upper], []) if name.as_str() == "subsort" => Some((lower, upper)),
        _ => None,
    }
}
