ghost use Rattle.std.specs.Prelude.{◌≡◌};
ghost use Rattle.dimacs_reader.specs.Steps.Words.{digit_after, word_of_byte, byte_after, is_nothing};
ghost use Rattle.dimacs_reader.specs.Steps.Words.{is_p, is_cnf, is_c, is_show_word, is_remark, is_percent};

/// What the bytes of a token so far are, as far as the format asks. It takes no memory, however
/// long the token is.
#[derive(Clone, Copy, Debug, PartialEq, Eq)]
pub enum Word {
    /// There is no byte yet.
    Nothing,
    /// `p`.
    P,
    /// `c`.
    C,
    /// `cn`.
    Cn,
    /// `cnf`.
    Cnf,
    /// Other bytes behind a `c`.
    Remark,
    /// `s`.
    S,
    /// `sh`.
    Sh,
    /// `sho`.
    Sho,
    /// `show`.
    Show,
    /// A `%`, and any bytes behind it.
    Percent,
    /// Digits, and their number, or `u32::MAX` where it is greater.
    Digits(u32),
    /// `-`.
    Minus,
    /// A `-` and digits, and their number, or `u32::MAX` where it is greater.
    Negative(u32),
    /// Any others.
    Other,
}

/// The number with one digit more, or `u32::MAX` where it is greater.
fn digit_after(number: u32, digit: u8) -> u32
    ensures { result ≡ digit_after number digit }
{
    number
        .saturating_mul(10)
        .saturating_add(u32::from(digit.saturating_sub(b'0')))
}

/// The token of this byte.
fn word_of_byte(byte: u8) -> Word
    ensures { result ≡ word_of_byte byte }
{
    match byte {
        b'p' => Word::P,
        b'c' => Word::C,
        b's' => Word::S,
        b'%' => Word::Percent,
        b'-' => Word::Minus,
        _ if byte.is_ascii_digit() => Word::Digits(digit_after(0, byte)),
        _ => Word::Other,
    }
}

impl Word {
    /// The token with one byte more.
    pub fn with(self, byte: u8) -> Word
        ensures { result ≡ byte_after self byte }
    {
        match self {
            Word::Digits(number) if byte.is_ascii_digit() => {
                Word::Digits(digit_after(number, byte))
            }
            Word::Negative(number) if byte.is_ascii_digit() => {
                Word::Negative(digit_after(number, byte))
            }
            Word::Minus if byte.is_ascii_digit() => Word::Negative(digit_after(0, byte)),
            Word::Nothing => word_of_byte(byte),
            Word::C if byte == b'n' => Word::Cn,
            Word::Cn if byte == b'f' => Word::Cnf,
            Word::C | Word::Cn | Word::Cnf | Word::Remark => Word::Remark,
            Word::S if byte == b'h' => Word::Sh,
            Word::Sh if byte == b'o' => Word::Sho,
            Word::Sho if byte == b'w' => Word::Show,
            Word::Percent => Word::Percent,
            _ => Word::Other,
        }
    }

    /// Whether there is no byte.
    pub fn is_nothing(self) -> bool
        ensures { result ≡ is_nothing self }
    {
        matches!(self, Word::Nothing)
    }

    /// Whether it is `p`.
    pub fn is_p(self) -> bool
        ensures { result ≡ is_p self }
    {
        matches!(self, Word::P)
    }

    /// Whether it is `cnf`.
    pub fn is_cnf(self) -> bool
        ensures { result ≡ is_cnf self }
    {
        matches!(self, Word::Cnf)
    }

    /// Whether it is `c`.
    pub fn is_c(self) -> bool
        ensures { result ≡ is_c self }
    {
        matches!(self, Word::C)
    }

    /// Whether it is `show`.
    pub fn is_show(self) -> bool
        ensures { result ≡ is_show_word self }
    {
        matches!(self, Word::Show)
    }

    /// Whether it begins with a `c`.
    pub fn is_remark(self) -> bool
        ensures { result ≡ is_remark self }
    {
        matches!(self, Word::C | Word::Cn | Word::Cnf | Word::Remark)
    }

    /// Whether it begins with a `%`.
    pub fn is_percent(self) -> bool
        ensures { result ≡ is_percent self }
    {
        matches!(self, Word::Percent)
    }
}
