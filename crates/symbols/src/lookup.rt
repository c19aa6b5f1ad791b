// A token looked up in the table.
ghost use Rattle.std.specs.Prelude.{◌≡◌};
ghost use Rattle.source.specs.Tokens.{token_at};
ghost use Rattle.symbols.specs.Trees.{tree_symbol};
ghost use Rattle.symbols.specs.Table.{live_names};
ghost use Rattle.symbols.specs.Lookup.{symbol_at, LooksUp};

use crate::{Names, Symbol, pack};
use source::kind::Kind;
use source::{Token, token_at};

impl Names<'_> {
    /// What a token stands for: a name by the live names, a numeral for its value, as a compconstant's name does (D12, E1).
    #[tactic(auto, using(crate::proofs::PackedTokens::for_lookup), unfolding(crate::specs::Lookup::symbol_by, crate::specs::Trees::tree_symbol))]
    pub fn lookup(&self, source: &[u8], t: Token) -> Symbol
        ensures { LooksUp source.now (live_names self.now.count self.now.words.now) t (tree_symbol result) }
    {
        match t.kind {
            Kind::Numeral => Symbol::Compconstant { value: t.value },
            Kind::Name => self.find(pack(source, t)),
            _ => Symbol::Unknown,
        }
    }

    /// The same of the token at an offset.
    pub fn lookup_at(&self, source: &[u8], at: usize) -> Symbol
        ensures { tree_symbol result ≡ symbol_at source.now (live_names self.now.count self.now.words.now) (token_at source.now at) }
    {
        self.lookup(source, token_at(source, at))
    }
}
