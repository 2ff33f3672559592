// Numbers on the command line.
ghost use Rattle.std.specs.Prelude.{◌≡◌, ◌<◌, ◌^◌, IfSome, IfNone, true, false};
ghost use Rattle.std.specs.Str.Parse.{digits_value};
ghost use Rattle.std.specs.List.{list_all};
ghost use Rattle.std.specs.Char.{is_ascii_digit};
ghost use Rattle.command_words.specs.CommandLine.{is_number, is_number_to};

// The number that a word states, if it is a number of at most `most`.
pub(crate) fn number_to(most: u32, word: &str) -> Option<u32>
    ensures number { IfSome result (λ n. n ≡ digits_value 10 word.now) }
    ensures good { IfSome result (λ n. is_number_to most word.now ≡ true) }
    ensures bad { IfNone result (is_number_to most word.now ≡ false) }
{
    if !is_number(word) {
        return None;
    }
    match word.parse::<u32>() {
        Ok(number) if number <= most => Some(number),
        _ => None,
    }
}

// Whether a word is one to eight digits.
fn is_number(word: &str) -> bool
    ensures { result ≡ is_number word.now }
{
    (1..=8).contains(&word.len()) && has_only_digits(word)
}

// Whether every byte of a word is a digit.
fn has_only_digits(word: &str) -> bool
    ensures { result ≡ list_all is_ascii_digit word.now }
{
    word.as_bytes().iter().all(|c| c.is_ascii_digit())
}
