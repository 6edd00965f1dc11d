// The numbers that stand among the words.
ghost use Rattle.std.specs.Prelude.{◌≡◌, ◌≤◌, option_map};
ghost use Rattle.std.specs.Char.{is_ascii_digit};
ghost use Rattle.std.specs.List.{list_all};
ghost use Rattle.risch_words.specs.Numbers as spec;

/// The number of a text, from 1 to `most`, or the default where there is no text.
pub(crate) fn number_or(default: u64, most: u64, text: Option<&str>) -> Option<u64>
    requires least { 1 ≤ default }
    requires most { default ≤ most }
    ensures { result ≡ option_map (λ n. n.value) (spec.number_or default most (option_map (λ t. t.now) text.entry)) }
{
    match text {
        Some(text) => number(most, text),
        None => Some(default),
    }
}

/// The number from 1 to `most` that the text writes, in digits alone.
fn number(most: u64, text: &str) -> Option<u64>
    ensures { result ≡ option_map (λ n. n.value) (spec.number most text.now) }
{
    if !is_digits(text.as_bytes()) {
        return None;
    }
    let Ok(number) = text.parse::<u64>() else {
        return None;
    };
    if number < 1 || number > most {
        return None;
    }
    Some(number)
}

// Whether each byte is a digit.
fn is_digits(text: &[u8]) -> bool
    ensures { result ≡ list_all is_ascii_digit text.now }
{
    text.iter().all(|byte| byte.is_ascii_digit())
}
