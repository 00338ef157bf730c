ghost use Rattle.std.specs.Prelude.{◌≡◌};
ghost use Rattle.text_grammar.specs.Bytes.{is_blank as is_blank_byte};
ghost use Rattle.text_grammar.specs.Prefixes.{is_in};

/// A class of bytes.
#[derive(Clone, Copy, PartialEq, Eq)]
pub enum Class {
    /// Space, tab, carriage return and line feed.
    Blank,
    /// `0` to `9`.
    Digit,
    /// `A` to `Z` and `a` to `z`.
    Letter,
    /// Digits and blanks.
    DigitOrBlank,
    /// Letters and digits.
    Alphanumeric,
    /// The bytes of names: letters, digits and `_`.
    NameByte,
    /// The bytes of a command's first word: neither a blank nor a double quote.
    Word,
    /// Any byte but a double quote.
    Unquoted,
}

impl Class {
    /// Whether the byte is of this class.
    pub fn contains(self, byte: u8) -> bool
        ensures { result ≡ is_in self byte }
    {
        match self {
            Class::Blank => is_blank(byte),
            Class::Digit => byte.is_ascii_digit(),
            Class::Letter => byte.is_ascii_alphabetic(),
            Class::DigitOrBlank => byte.is_ascii_digit() || is_blank(byte),
            Class::Alphanumeric => byte.is_ascii_alphanumeric(),
            Class::NameByte => byte.is_ascii_alphanumeric() || byte == b'_',
            Class::Word => !is_blank(byte) && byte != b'"',
            Class::Unquoted => byte != b'"',
        }
    }
}

fn is_blank(byte: u8) -> bool
    ensures { result ≡ is_blank_byte byte }
{
    byte == b' ' || byte == b'\t' || byte == b'\r' || byte == b'\n'
}
