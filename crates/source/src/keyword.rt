// Keywords: a point and letters.
ghost use Rattle.std.specs.Prelude.{◌≡◌, ◌+◌, ◌^◌, ◌≤◌, ◌<◌, length};
ghost use Rattle.source.specs.Keywords.{keyword_length, keyword_kind};
ghost use Rattle.source.specs.Tables.{kind_among};
ghost use Rattle.source.specs.Tokens.{keyword_token};

use crate::Token;
use crate::kind::Kind;
use crate::span::{self, Class};

static KEYWORDS: [(&[u8], Kind); 54] = [
    (b"BEGIN", Kind::Begin),
    (b"END", Kind::End),
    (b"INTEGER", Kind::Integer),
    (b"CONSTANT", Kind::Constant),
    (b"COMPCONSTANT", Kind::Compconstant),
    (b"ARRAY", Kind::Array),
    (b"NEXTSECTOR", Kind::Nextsector),
    (b"PROCEDURE", Kind::Procedure),
    (b"ACCUMULATOR", Kind::Accumulator),
    (b"IF", Kind::If),
    (b"THEN", Kind::Then),
    (b"ELSE", Kind::Else),
    (b"WHEN", Kind::When),
    (b"WHILE", Kind::While),
    (b"DO", Kind::Do),
    (b"FOR", Kind::For),
    (b"ZERO", Kind::Zero),
    (b"AND", Kind::And),
    (b"NEV", Kind::Nev),
    (b"ADDC", Kind::Addc),
    (b"INC", Kind::Inc),
    (b"NEG", Kind::Neg),
    (b"SSP", Kind::Ssp),
    (b"SSM", Kind::Ssm),
    (b"CHS", Kind::Chs),
    (b"CSA", Kind::Csa),
    (b"NOT", Kind::Not),
    (b"ICLEFT", Kind::Icleft),
    (b"CLEFT", Kind::Cleft),
    (b"SWOP", Kind::Swop),
    (b"ICRIGHT", Kind::Icright),
    (b"CRIGHT", Kind::Cright),
    (b"ABS", Kind::Abs),
    (b"LGR", Kind::Lgr),
    (b"ARS", Kind::Ars),
    (b"ARR", Kind::Arr),
    (b"LGL", Kind::Lgl),
    (b"ALS", Kind::Als),
    (b"ALR", Kind::Alr),
    (b"NONZERO", Kind::Nonzero),
    (b"PLUS", Kind::Plus),
    (b"MINUS", Kind::Minus),
    (b"ODD", Kind::Odd),
    (b"EVEN", Kind::Even),
    (b"CSET", Kind::Cset),
    (b"NOTC", Kind::Notc),
    (b"SENSE1", Kind::Sense1),
    (b"SENSE2", Kind::Sense2),
    (b"SENSE3", Kind::Sense3),
    (b"SENSE4", Kind::Sense4),
    (b"ANYKEY", Kind::Anykey),
    (b"NOKEY", Kind::Nokey),
    (b"MOD", Kind::Mod),
    (b"CHECKED", Kind::Checked),
];

// What stands in no row carries a failure, as an unknown byte does. The rows are lent, since a proof does not look into a static.
#[tactic(auto, unfolding(crate::specs::Tables::kind_among))]
fn kind_in(rows: &[(&[u8], Kind)], keyword: &[u8]) -> Kind
    ensures { result ≡ kind_among rows.now keyword.now }
{
    rows.iter()
        .find(|row| keyword == row.0)
        .map_or(Kind::Unknown, |row| row.1)
}

fn keyword_kind(keyword: &[u8]) -> Kind
    ensures { result ≡ keyword_kind keyword.now }
{
    kind_in(&KEYWORDS, keyword)
}

// Letters, and after `SENSE` one digit.
#[tactic(auto, using(crate::proofs::Widths::for_keyword_width))]
fn keyword_width(bytes: &[u8]) -> usize
    ensures { (result ≡ keyword_length bytes.now) × (result ≤ length bytes.now) }
{
    let letters = span::width(bytes, Class::Letter);
    let (word, rest) = bytes.split_at(letters);
    if word == b"SENSE".as_slice() {
        letters + span::width(&rest[..rest.len().min(1)], Class::Digit)
    } else {
        letters
    }
}

/// Behind its point, which stands at an offset.
#[tactic(auto, unfolding(crate::specs::Tokens::keyword_token))]
pub fn keyword(bytes: &[u8], at: usize) -> Token
    requires { at + 1 + length bytes.now < 2 ^ 64 }
    ensures { result ≡ keyword_token bytes.now at }
{
    let width = keyword_width(bytes);
    let kind = keyword_kind(&bytes[..width]);
    Token::plain(kind, at, width + 1)
}
