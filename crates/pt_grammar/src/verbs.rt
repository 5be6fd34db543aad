// The table of commands.
ghost use Rattle.std.specs.Prelude.{◌≡◌, option_map, map};
ghost use Rattle.pt_grammar.specs.Verbs.{row_in, table, shown_row};

use crate::item_forms::{ItemForm, More};
use crate::words::is;

/// What a command does.
#[derive(Clone, Copy, Debug, PartialEq, Eq)]
pub enum Verb {
    SetLogic,
    SetInfo,
    SetOption,
    DeclareConst,
    DeclareFun,
    DefineFun,
    Assert,
    CheckSat,
    GetValue,
    GetModel,
    Push,
    Pop,
    Reset,
    Echo,
    Exit,
    SetEqual,
    SetSubset,
    SetEmpty,
    SetFinite,
    SetStates,
    SetMember,
    SetList,
}

/// The name of a command, what it does, the forms of the items that have to stand behind the name, and what may stand behind those.
#[derive(Clone, Copy)]
pub struct Row {
    pub name: &'static [u8],
    pub verb: Verb,
    pub forms: &'static [ItemForm],
    pub more: More,
}

const TABLE: [Row; 22] = [
    Row {
        name: b"set-logic",
        verb: Verb::SetLogic,
        forms: &[ItemForm::Symbol],
        more: More::Nothing,
    },
    Row {
        name: b"set-info",
        verb: Verb::SetInfo,
        forms: &[ItemForm::Keyword],
        more: More::Maybe(ItemForm::Value),
    },
    Row {
        name: b"set-option",
        verb: Verb::SetOption,
        forms: &[ItemForm::Keyword],
        more: More::Maybe(ItemForm::Value),
    },
    Row {
        name: b"declare-const",
        verb: Verb::DeclareConst,
        forms: &[ItemForm::Symbol, ItemForm::Sort],
        more: More::Nothing,
    },
    Row {
        name: b"declare-fun",
        verb: Verb::DeclareFun,
        forms: &[ItemForm::Symbol, ItemForm::SortList, ItemForm::Sort],
        more: More::Nothing,
    },
    Row {
        name: b"define-fun",
        verb: Verb::DefineFun,
        forms: &[
            ItemForm::Symbol,
            ItemForm::ParameterList,
            ItemForm::Sort,
            ItemForm::Term,
        ],
        more: More::Nothing,
    },
    Row {
        name: b"assert",
        verb: Verb::Assert,
        forms: &[ItemForm::Term],
        more: More::Nothing,
    },
    Row {
        name: b"check-sat",
        verb: Verb::CheckSat,
        forms: &[],
        more: More::Nothing,
    },
    Row {
        name: b"get-value",
        verb: Verb::GetValue,
        forms: &[ItemForm::ItemList],
        more: More::Nothing,
    },
    Row {
        name: b"get-model",
        verb: Verb::GetModel,
        forms: &[],
        more: More::Nothing,
    },
    Row {
        name: b"push",
        verb: Verb::Push,
        forms: &[],
        more: More::Maybe(ItemForm::Numeral),
    },
    Row {
        name: b"pop",
        verb: Verb::Pop,
        forms: &[],
        more: More::Maybe(ItemForm::Numeral),
    },
    Row {
        name: b"reset",
        verb: Verb::Reset,
        forms: &[],
        more: More::Nothing,
    },
    Row {
        name: b"echo",
        verb: Verb::Echo,
        forms: &[ItemForm::Text],
        more: More::Nothing,
    },
    Row {
        name: b"exit",
        verb: Verb::Exit,
        forms: &[],
        more: More::Nothing,
    },
    Row {
        name: b"set-equal",
        verb: Verb::SetEqual,
        forms: &[ItemForm::Symbol, ItemForm::Symbol],
        more: More::Nothing,
    },
    Row {
        name: b"set-subset",
        verb: Verb::SetSubset,
        forms: &[ItemForm::Symbol, ItemForm::Symbol],
        more: More::Nothing,
    },
    Row {
        name: b"set-empty",
        verb: Verb::SetEmpty,
        forms: &[ItemForm::Symbol],
        more: More::Nothing,
    },
    Row {
        name: b"set-finite",
        verb: Verb::SetFinite,
        forms: &[ItemForm::Symbol],
        more: More::Nothing,
    },
    Row {
        name: b"set-states",
        verb: Verb::SetStates,
        forms: &[ItemForm::Symbol],
        more: More::Nothing,
    },
    Row {
        name: b"set-member",
        verb: Verb::SetMember,
        forms: &[ItemForm::Symbol],
        more: More::Many(ItemForm::Component),
    },
    Row {
        name: b"set-list",
        verb: Verb::SetList,
        forms: &[ItemForm::Symbol, ItemForm::Numeral],
        more: More::Nothing,
    },
];

/// The first of the rows with the name.
fn find_row(rows: &[Row], name: &[u8]) -> Option<Row>
    ensures { option_map shown_row result ≡ row_in (map shown_row rows.now) name.now }
{
    for row in rows {
        if is(name, row.name) {
            return Some(*row);
        }
    }
    None
}

/// The row of a command, by its name.
pub fn row_of(name: &[u8]) -> Option<Row>
    ensures { option_map shown_row result ≡ row_in table name.now }
{
    find_row(&TABLE, name)
}
