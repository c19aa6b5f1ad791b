// New names.
ghost use Rattle.std.specs.Prelude.{◌≡◌, [], ℕ, ◌*◌, ◌≤◌, length};
ghost use Rattle.source.specs.Tokens.{token_at};
ghost use Rattle.grammar.specs.Parse.{within};
ghost use Rattle.grammar.specs.Parse.Got.{got};
ghost use Rattle.layout.specs.Limits.{name_limit};
ghost use Rattle.grammar.specs.Declarations.{new_name};
ghost use Rattle.symbols.specs.Packing.{unpack};
ghost use Rattle.parser.specs.Reads.{Gives};
ghost use Rattle.declarations.specs.Scopes.{scope_of, name_failure, Limits};

use crate::Scope;
use layout::addresses::GLOBAL_WORDS;
use parser::{Cause, Part, Read, fail_at};
use source::kind::Kind;
use source::{Token, token_at};
use symbols::{Names, Packed, pack};

// The names that may be alive, X uncounted (D16).
const LIVE_NAMES: usize = 512;

// Goes on after a token, unless a limit is passed there.
#[tactic(auto, unfolding(grammar::specs::Parse::within, grammar::specs::Parse::fail_at))]
pub(crate) fn pass_at(t: Token, limit: Result<(), Cause>) -> Read<Token>
    ensures { (number : ℕ) → Limits limit number → Gives (λ t. t) result (within number t (got t t.next)) }
{
    match limit {
        Ok(()) => Ok(Part {
            value: t,
            next: t.next,
        }),
        Err(cause) => Err(fail_at(t, cause)),
    }
}

impl Scope {
    // The failure of a new name, by its token and its packed words, with the limit of its own word (F8, F10, J7).
    #[tactic(auto, using(crate::proofs::NameLaws::for_name_failure), unfolding(crate::specs::Scopes::name_failure, tree::specs::Symbols::is_taken))]
    fn name_failure(
        self,
        table: &[u16],
        limit: Result<(), Cause>,
        t: Token,
        name: Packed,
    ) -> Result<(), Cause>
        requires { 7 * self.names ≤ length table.now }
        ensures { (number : ℕ) → Limits limit number → Limits result (name_failure (scope_of self table.now) number t (unpack name)) }
    {
        if t.kind != Kind::Name {
            return Err(Cause::NotAllowed);
        }
        let names = Names {
            words: table,
            count: self.names,
        };
        if names.is_taken(name, self.level) {
            return Err(Cause::NameTaken);
        }
        if LIVE_NAMES <= self.names {
            return Err(Cause::TooManyNames);
        }
        limit
    }

    // A new name, with the limit of its word; it is packed once, to be looked for and to be declared (C7).
    pub(crate) fn new_name(
        self,
        source: &[u8],
        table: &[u16],
        limit: Result<(), Cause>,
        at: usize,
    ) -> Read<Packed>
        requires { 7 * self.names ≤ length table.now }
        ensures { (number : ℕ) → Limits limit number → Gives unpack result (new_name source.now (scope_of self table.now) number (token_at source.now at)) }
    {
        let t = token_at(source, at);
        let name = pack(source, t);
        let passed = pass_at(t, self.name_failure(table, limit, t, name));
        let Ok(Part { value: _, next }) = passed else {
            return Err(passed.unwrap_err());
        };
        Ok(Part { value: name, next })
    }

    // At a declared name that takes a word: 11 where sector 0 has none left (F11).
    #[tactic(auto, unfolding(layout::specs::Limits::name_limit, layout::specs::Limits::word_limit, symbols::specs::Table::level_of))]
    pub(crate) fn name_limit(self) -> Result<(), Cause>
        ensures { Limits result (name_limit (scope_of self [])) }
    {
        if self.level == 0 && GLOBAL_WORDS <= self.taken {
            return Err(Cause::NoGlobalLeft);
        }
        Ok(())
    }
}
