// Why there is no page (F24 to F26).
ghost use Rattle.std.specs.Prelude.{◌≡◌, Some};
ghost use Rattle.page.specs.Failures.{number_of, words_of};

use std::fmt;

#[derive(Clone, Copy, Debug, PartialEq, Eq)]
pub enum Failure {
    BadLitres = 24,
    BadName = 25,
    BadLists = 26,
}

impl Failure {
    pub fn number(self) -> u16
        ensures { result ≡ number_of self }
    {
        self as u16
    }
}

impl fmt::Display for Failure {
    ghost output = { λ f. Some (words_of f) };

    fn fmt<W: fmt::Write>(&self, f: &mut fmt::Formatter<W>) -> fmt::Result {
        f.write_str(match self {
            Failure::BadLitres => "more than 32,767 litres",
            Failure::BadName => {
                "a farm's name is empty, without a newline, over 14 bytes, or has bytes outside 32 to 126"
            }
            Failure::BadLists => {
                "output too short, more than 1,000 farms, or not as many names as litres"
            }
        })
    }
}
