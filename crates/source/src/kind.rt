// The kinds of token, each with its number in specs/Kinds. A keyword's kind is named by its letters.
ghost use Rattle.std.specs.Prelude.{◌≡◌};
ghost use Rattle.prelude.specs.Choice.{between};
ghost use Rattle.source.specs.Kinds.{kind_number, kind_of};
ghost use Rattle.source.specs.Tables.{kind_numbered};

#[derive(Clone, Copy, Debug, PartialEq, Eq)]
pub enum Kind {
    EndOfSource = 0,
    Unknown = 1,
    OutOfRange = 2,
    Name = 3,
    Numeral = 4,
    Semicolon = 5,
    Comma = 6,
    Equal = 7,
    NotEqual = 8,
    Less = 9,
    Greater = 10,
    AtMost = 11,
    AtLeast = 12,
    PlusSign = 13,
    MinusSign = 14,
    LeftParenthesis = 15,
    RightParenthesis = 16,
    LeftBracket = 17,
    RightBracket = 18,
    Quote = 19,
    At = 20,
    Hash = 21,
    Begin = 22,
    End = 23,
    Integer = 24,
    Constant = 25,
    Compconstant = 26,
    Array = 27,
    Nextsector = 28,
    Procedure = 29,
    Accumulator = 30,
    If = 31,
    Then = 32,
    Else = 33,
    When = 34,
    While = 35,
    Do = 36,
    For = 37,
    Zero = 38,
    And = 39,
    Nev = 40,
    Addc = 41,
    Inc = 42,
    Neg = 43,
    Ssp = 44,
    Ssm = 45,
    Chs = 46,
    Csa = 47,
    Not = 48,
    Icleft = 49,
    Cleft = 50,
    Swop = 51,
    Icright = 52,
    Cright = 53,
    Abs = 54,
    Lgr = 55,
    Ars = 56,
    Arr = 57,
    Lgl = 58,
    Als = 59,
    Alr = 60,
    Nonzero = 61,
    Plus = 62,
    Minus = 63,
    Odd = 64,
    Even = 65,
    Cset = 66,
    Notc = 67,
    Sense1 = 68,
    Sense2 = 69,
    Sense3 = 70,
    Sense4 = 71,
    Anykey = 72,
    Nokey = 73,
    Mod = 74,
    Checked = 75,
    Star = 100,
    Slash = 101,
    // No token has it: what `from` makes of a number that is no kind's.
    Other = 65535,
}

impl Kind {
    pub fn number(self) -> u16
        ensures { result ≡ kind_number self }
    {
        self as u16
    }

    /// By the numbers, in which words of one sort follow one another.
    pub fn is_between(self, low: Kind, high: Kind) -> bool
        ensures { result ≡ between (kind_number low) (kind_number high) (kind_number self) }
    {
        (low.number()..=high.number()).contains(&self.number())
    }
}

static KINDS: [Kind; 78] = [
    Kind::EndOfSource,
    Kind::Unknown,
    Kind::OutOfRange,
    Kind::Name,
    Kind::Numeral,
    Kind::Semicolon,
    Kind::Comma,
    Kind::Equal,
    Kind::NotEqual,
    Kind::Less,
    Kind::Greater,
    Kind::AtMost,
    Kind::AtLeast,
    Kind::PlusSign,
    Kind::MinusSign,
    Kind::LeftParenthesis,
    Kind::RightParenthesis,
    Kind::LeftBracket,
    Kind::RightBracket,
    Kind::Quote,
    Kind::At,
    Kind::Hash,
    Kind::Begin,
    Kind::End,
    Kind::Integer,
    Kind::Constant,
    Kind::Compconstant,
    Kind::Array,
    Kind::Nextsector,
    Kind::Procedure,
    Kind::Accumulator,
    Kind::If,
    Kind::Then,
    Kind::Else,
    Kind::When,
    Kind::While,
    Kind::Do,
    Kind::For,
    Kind::Zero,
    Kind::And,
    Kind::Nev,
    Kind::Addc,
    Kind::Inc,
    Kind::Neg,
    Kind::Ssp,
    Kind::Ssm,
    Kind::Chs,
    Kind::Csa,
    Kind::Not,
    Kind::Icleft,
    Kind::Cleft,
    Kind::Swop,
    Kind::Icright,
    Kind::Cright,
    Kind::Abs,
    Kind::Lgr,
    Kind::Ars,
    Kind::Arr,
    Kind::Lgl,
    Kind::Als,
    Kind::Alr,
    Kind::Nonzero,
    Kind::Plus,
    Kind::Minus,
    Kind::Odd,
    Kind::Even,
    Kind::Cset,
    Kind::Notc,
    Kind::Sense1,
    Kind::Sense2,
    Kind::Sense3,
    Kind::Sense4,
    Kind::Anykey,
    Kind::Nokey,
    Kind::Mod,
    Kind::Checked,
    Kind::Star,
    Kind::Slash,
];

// The rows are lent, since a proof does not look into a static.
#[tactic(auto, unfolding(crate::specs::Tables::kind_numbered))]
fn numbered(kinds: &[Kind], number: u16) -> Kind
    ensures { result ≡ kind_numbered kinds.now number }
{
    kinds
        .iter()
        .find(|kind| kind.number() == number)
        .map_or(Kind::Other, |kind| *kind)
}

impl From<u16> for Kind {
    #[tactic(auto, using(crate::proofs::Tables::for_from))]
    fn from(number: u16) -> Kind
        ensures { result ≡ kind_of number }
    {
        numbered(&KINDS, number)
    }
}
