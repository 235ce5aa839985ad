ghost use Rattle.std.specs.Prelude.{◌≡◌};
ghost use Rattle.std.specs.Char.{is_ascii_digit};
ghost use Rattle.std.specs.List.{list_all};
ghost use Rattle.sp_words.specs.Size as definitions;
ghost use Rattle.sp_words.specs.Size.{is_numeral, size_of};

/// The size that a word is, if any: a number from 1 to 100 in decimal digits, without leading zeros.
pub fn size_of(word: &str) -> Option<u32>
    ensures { result ≡ size_of word.now }
{
    if !is_numeral(word.as_bytes()) {
        return None;
    }
    match word.parse::<u32>() {
        Ok(size) => sized(size),
        Err(_) => None,
    }
}

// The number, where it is a size.
fn sized(number: u32) -> Option<u32>
    ensures { result ≡ definitions.sized number }
{
    if 1 <= number && number <= 100 {
        Some(number)
    } else {
        None
    }
}

fn is_numeral(word: &[u8]) -> bool
    ensures { result ≡ is_numeral word.now }
{
    match word {
        [] => false,
        [first, ..] => *first != b'0' && are_digits(word),
    }
}

fn are_digits(word: &[u8]) -> bool
    ensures { result ≡ list_all is_ascii_digit word.now }
{
    word.iter().all(|b| b.is_ascii_digit())
}
