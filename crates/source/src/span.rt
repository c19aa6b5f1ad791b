// Spans: as many bytes of one class as stand in front.
ghost use Rattle.std.specs.Prelude.{◌≡◌, ◌≤◌, length};
ghost use Rattle.source.specs.Bytes.{span};
ghost use Rattle.source.specs.Classes.{passes};

#[derive(Clone, Copy, Debug, PartialEq, Eq)]
pub enum Class {
    Blank,
    Digit,
    OctalDigit,
    Letter,
    LetterOrDigit,
}

impl Class {
    pub fn has(self, b: u8) -> bool
        ensures { result ≡ passes self b }
    {
        match self {
            Class::Blank => matches!(b, b' ' | b'\n'),
            Class::Digit => matches!(b, b'0'..=b'9'),
            Class::OctalDigit => matches!(b, b'0'..=b'7'),
            Class::Letter => matches!(b, b'A'..=b'Z'),
            Class::LetterOrDigit => matches!(b, b'A'..=b'Z' | b'0'..=b'9'),
        }
    }
}

/// How many of the first bytes are of a class.
pub fn width(bytes: &[u8], class: Class) -> usize
    ensures { (result ≡ span (passes class) bytes.now) × (result ≤ length bytes.now) }
{
    bytes.iter().take_while(|b| class.has(**b)).count()
}
