// Signs of one and two bytes.
ghost use Rattle.std.specs.Prelude.{◌≡◌, ◌+◌, ◌^◌, ◌<◌, length};
ghost use Rattle.source.specs.Tokens.{sign_token};

use crate::Token;
use crate::kind::Kind;

// Those of two bytes stand first, since the longest is taken (T4); a byte that begins no sign carries a failure (T2, F4).
// A match and no scan of rows, for speed: it looks at two bytes at most.
#[tactic(auto, using(crate::proofs::Signs::for_sign))]
pub fn sign(bytes: &[u8], at: usize) -> Token
    requires { (0 < length bytes.now) × (at + length bytes.now < 2 ^ 64) }
    ensures { result ≡ sign_token bytes.now at }
{
    match bytes {
        [b'<', b'>', ..] => Token::plain(Kind::NotEqual, at, 2),
        [b'<', b'=', ..] => Token::plain(Kind::AtMost, at, 2),
        [b'>', b'=', ..] => Token::plain(Kind::AtLeast, at, 2),
        [b'<', ..] => Token::plain(Kind::Less, at, 1),
        [b'>', ..] => Token::plain(Kind::Greater, at, 1),
        [b'=', ..] => Token::plain(Kind::Equal, at, 1),
        [b';', ..] => Token::plain(Kind::Semicolon, at, 1),
        [b',', ..] => Token::plain(Kind::Comma, at, 1),
        [b'+', ..] => Token::plain(Kind::PlusSign, at, 1),
        [b'*', ..] => Token::plain(Kind::Star, at, 1),
        [b'/', ..] => Token::plain(Kind::Slash, at, 1),
        [b'(', ..] => Token::plain(Kind::LeftParenthesis, at, 1),
        [b')', ..] => Token::plain(Kind::RightParenthesis, at, 1),
        [b'[', ..] => Token::plain(Kind::LeftBracket, at, 1),
        [b']', ..] => Token::plain(Kind::RightBracket, at, 1),
        [b'@', ..] => Token::plain(Kind::At, at, 1),
        [b'#', ..] => Token::plain(Kind::Hash, at, 1),
        _ => Token::plain(Kind::Unknown, at, 1),
    }
}
