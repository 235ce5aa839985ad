ghost use Rattle.std.specs.Prelude.{◌≡◌};
ghost use Rattle.sp_text.specs.Classes.{digit_byte, letter_byte, space_byte};

/// Whether the byte is a letter, `A` to `Z` or `a` to `z`.
pub fn is_letter(b: u8) -> bool
    ensures { result ≡ letter_byte b }
{
    b.is_ascii_alphabetic()
}

/// Whether the byte is a digit, `0` to `9`.
pub fn is_digit(b: u8) -> bool
    ensures { result ≡ digit_byte b }
{
    b.is_ascii_digit()
}

/// Whether the byte is a blank: a tab, line feed, form feed, carriage return or space.
pub fn is_space(b: u8) -> bool
    ensures { result ≡ space_byte b }
{
    b.is_ascii_whitespace()
}
