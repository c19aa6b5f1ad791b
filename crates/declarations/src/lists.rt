// Lists of integers, constants and compconstants, at both levels.
// Each list loop is written out: as a function of a closure, the closure would have to carry the loans of table and image.
ghost use Rattle.source.specs.Kinds.{kind_number};
ghost use Rattle.std.specs.Prelude.{◌≡◌, []};
ghost use Rattle.grammar.specs.Declarations.{parse_local, parse_list, parse_locals};
ghost use Rattle.declarations.specs.Scopes.{scope_of, tree_keyword, keyword_of, tree_found, Room};
ghost use Rattle.declarations.specs.Clauses.{DeclaresItems, item_list_at};

use crate::{ItemKeyword, Scope};
use parser::{Part, Read, expect};
use source::kind::Kind;
use source::token_at;

impl ItemKeyword {
    /// The item keyword that a token of a kind is.
    #[tactic(auto, unfolding(crate::specs::Scopes::keyword_of, crate::specs::Scopes::tree_found, crate::specs::Scopes::tree_keyword, prelude::specs::Choice::find))]
    pub(crate) fn of_kind(kind: Kind) -> Option<ItemKeyword>
        ensures { tree_found result ≡ keyword_of (kind_number kind) }
    {
        match kind {
            Kind::Integer => Some(ItemKeyword::Integer),
            Kind::Constant => Some(ItemKeyword::Constant),
            Kind::Compconstant => Some(ItemKeyword::Compconstant),
            _ => None,
        }
    }
}

impl Scope {
    // Items separated by commas, each declared before the next.
    fn item_list(
        self,
        source: &[u8],
        table: &mut [u16],
        image: &mut [u16],
        keyword: ItemKeyword,
        at: usize,
    ) -> Read<Scope>
        requires { Room self table.old }
        ensures { DeclaresItems self table.old image.old result table.new image.new
            (item_list_at source.now (scope_of self table.old) (tree_keyword keyword) at) }
    {
        let mut scope = self;
        let mut from = at;
        for _ in 0..source.len() {
            let one = scope.item(source, table, image, keyword, from);
            let Ok(Part { value: after, next }) = one else {
                return one;
            };
            let t = token_at(source, next);
            if t.kind != Kind::Comma {
                return one;
            }
            scope = after;
            from = t.next;
        }
        scope.item(source, table, image, keyword, from)
    }

    // The same, ended by `;`.
    pub(crate) fn items(
        self,
        source: &[u8],
        table: &mut [u16],
        image: &mut [u16],
        keyword: ItemKeyword,
        at: usize,
    ) -> Read<Scope>
        requires { Room self table.old }
        ensures { DeclaresItems self table.old image.old result table.new image.new
            (parse_list source.now (parse_local source.now (scope_of self table.old) (tree_keyword keyword)) [] at) }
    {
        let list = self.item_list(source, table, image, keyword, at);
        let Ok(Part { value: scope, next }) = list else {
            return list;
        };
        let end = expect(source, Kind::Semicolon, next);
        let Ok(Part { value: _, next }) = end else {
            return Err(end.unwrap_err());
        };
        Ok(Part { value: scope, next })
    }

    // Any lists of locals, each ended by `;`.
    pub(crate) fn locals(
        self,
        source: &[u8],
        table: &mut [u16],
        image: &mut [u16],
        at: usize,
    ) -> Read<Scope>
        requires { Room self table.old }
        ensures { DeclaresItems self table.old image.old result table.new image.new
            (parse_locals source.now (scope_of self table.old) at) }
    {
        let mut scope = self;
        let mut from = at;
        for _ in 0..source.len() {
            let t = token_at(source, from);
            let Some(keyword) = ItemKeyword::of_kind(t.kind) else {
                break;
            };
            let list = scope.items(source, table, image, keyword, t.next);
            let Ok(Part { value: after, next }) = list else {
                return list;
            };
            scope = after;
            from = next;
        }
        Ok(Part {
            value: scope,
            next: from,
        })
    }
}
