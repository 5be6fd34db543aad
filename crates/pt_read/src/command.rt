use crate::constants::Constants;
use crate::integers::Integers;
use pt_formula::Position;
use pt_terms::bytes::Bytes;
use pt_terms::meaning::{Meaning, Sort};
use pt_terms::parameters::Parameters;
use pt_terms::sorts::Sorts;

#[derive(Drop)]
pub struct Definition {
    pub name: Bytes,
    pub parameters: Parameters,
    pub sorts: Sorts,
    pub meaning: Meaning,
}

#[derive(Drop)]
pub struct Predicate {
    pub parameters: Parameters,
    pub sorts: Sorts,
    pub body: u32,
}

#[derive(Drop)]
pub enum CommandKind {
    SetLogic,
    SetInfo,
    SetOption {
        success: Option<bool>,
    },
    Declare {
        name: Bytes,
        variable: u32,
        sort: Sort,
    },
    Define {
        definition: Definition,
    },
    Assert {
        term: u32,
        conjunction: u32,
    },
    CheckSat,
    GetValue {
        constants: Constants,
    },
    GetModel,
    Push(u64),
    Pop(u64),
    Reset,
    Echo(Bytes),
    Exit,
    SetEqual(Predicate, Predicate),
    SetSubset(Predicate, Predicate),
    SetEmpty(Predicate),
    SetFinite(Predicate),
    SetStates(Predicate),
    SetMember(Predicate, Integers),
    SetList(Predicate, u32),
}

/// An elaborated command, and the place of its parenthesis.
#[derive(Drop)]
pub struct Command {
    pub position: Position,
    pub kind: CommandKind,
}
