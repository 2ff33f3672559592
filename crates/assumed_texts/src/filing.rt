// Images by their texts, so that one is found without a look at the others.
ghost use Rattle.std.specs.Prelude.{◌≡◌, ◌↔◌, IfOk, OnOk, IsTrue, List, Contains};
ghost use Rattle.std.specs.Str.{IsUtf8};
ghost use Rattle.mm_text.specs.Bytes.{Token};
ghost use Rattle.ml_pat.specs.Patterns.{Pattern};
ghost use Rattle.assumed_texts.specs.Filing.{AreFiled, Files, Finds, image_text};

use ml_pat::{MPat, Names};
use mm_proof::{TextPart, push_text};
use rule_core::{Table, TextHasher};
use std::alloc::{AllocError, Global};

// Images, each by its text, and others whose texts are in the table already or are not UTF-8. There
// are no others where no token has white space.
#[derive(Drop)]
pub(crate) struct Filed {
    by_text: Table<MPat>,
    others: Vec<MPat>,
}

// The images by their texts over these names.
pub(crate) fn file_all(
    alloc: Global,
    hasher: TextHasher,
    names: &Names,
    images: &[MPat],
) -> Result<Filed, AllocError>
    ensures { IfOk result (λ r. AreFiled names.now images.now r.by_text r.others.items) }
{
    let mut filed = Filed {
        by_text: Table::hashed_by(alloc, hasher),
        others: Vec::new(alloc),
    };
    for image in images {
        file_image(alloc, names, &mut filed, image)?;
    }
    Ok(filed)
}

// Files an image by its text.
fn file_image(
    alloc: Global,
    names: &Names,
    filed: &mut Filed,
    image: &MPat,
) -> Result<(), AllocError>
    ensures { OnOk result (Files names.now image.now filed.old.by_text filed.old.others.items
        filed.new.by_text filed.new.others.items) }
{
    let text = text_of(alloc, names, image)?;
    let Ok(name) = str::from_utf8(&text) else {
        filed.others.push(image.share()?)?;
        return Ok(());
    };
    file_by(alloc, filed, name, image)
}

// Files an image by this text, which is its own.
fn file_by(alloc: Global, filed: &mut Filed, name: &str, image: &MPat) -> Result<(), AllocError>
    ensures { OnOk result ((names : List Token) → name.now ≡ image_text names image.now
        → Files names image.now filed.old.by_text filed.old.others.items filed.new.by_text
        filed.new.others.items) }
{
    if in_table(&filed.by_text, name, image) {
        return Ok(());
    }
    let held = String::from_str(alloc, name)?;
    if filed.by_text.insert(held, image.share()?)? {
        return Ok(());
    }
    filed.others.push(image.share()?)?;
    Ok(())
}

// Whether the pattern is one of the images that were filed over these names.
pub(crate) fn has_image(
    alloc: Global,
    names: &Names,
    filed: &Filed,
    pat: &MPat,
) -> Result<bool, AllocError>
    ensures { IfOk result (λ b. (images : List Pattern)
        → AreFiled names.now images filed.now.by_text filed.now.others.items
        → IsTrue b ↔ Contains images pat.now) }
{
    let text = text_of(alloc, names, pat)?;
    if is_filed(&filed.by_text, &text, pat) {
        return Ok(true);
    }
    Ok(is_among(&filed.others, pat))
}

// The text of a pattern.
fn text_of(alloc: Global, names: &Names, pat: &MPat) -> Result<Vec<u8>, AllocError>
    ensures { IfOk result (λ v. v.items ≡ image_text names.now pat.now) }
{
    let mut text = Vec::new(alloc);
    push_text(&mut text, names, 0, &[TextPart::Pattern(pat)])?;
    Ok(text)
}

// Whether the table has the pattern by this text.
fn is_filed(table: &Table<MPat>, text: &[u8], pat: &MPat) -> bool
    ensures { IsTrue result ↔ (IsUtf8 text.now × Finds table.now text.now pat.now) }
{
    match str::from_utf8(text) {
        Ok(name) => in_table(table, name, pat),
        Err(_) => false,
    }
}

// Whether the table has the pattern by this name.
fn in_table(table: &Table<MPat>, name: &str, pat: &MPat) -> bool
    ensures { IsTrue result ↔ Finds table.now name.now pat.now }
{
    let Some(number) = table.number(name) else {
        return false;
    };
    let Some(image) = table.value(number) else {
        return false;
    };
    image.same(pat)
}

// Whether the pattern is one of the images.
fn is_among(images: &[MPat], pat: &MPat) -> bool
    ensures { IsTrue result ↔ Contains images.now pat.now }
{
    for image in images {
        if image.same(pat) {
            return true;
        }
    }
    false
}
