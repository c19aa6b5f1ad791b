// The machine's failures by their numbers (F1, F20 to F23, F27).
ghost use Rattle.std.specs.Prelude.{◌≡◌, Some};
ghost use Rattle.machine.specs.Failure.{number_of, words_of};

use std::fmt;

#[derive(Debug, Clone, Copy, PartialEq, Eq)]
pub enum Failure {
    WrongImage = 1,
    UnknownWord = 20,
    LongChain = 21,
    OverBudget = 22,
    WrongP = 23,
    WrongCooperative = 27,
}

impl Failure {
    pub fn number(self) -> u16
        ensures { result ≡ number_of self }
    {
        self as u16
    }
}

impl fmt::Display for Failure {
    ghost output = { λ f. Some (words_of f) };

    fn fmt<W: fmt::Write>(&self, f: &mut fmt::Formatter<W>) -> fmt::Result {
        f.write_str(match self {
            Failure::WrongImage => "the image has not 16,384 words",
            Failure::UnknownWord => "the word at P is no instruction",
            Failure::LongChain => "more than 16 indirect words in a row",
            Failure::OverBudget => "budget above 1,000,000 steps",
            Failure::WrongP => "P is outside the 16,384 words",
            Failure::WrongCooperative => "cooperative above 15",
        })
    }
}
