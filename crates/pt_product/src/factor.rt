// One of two sets, as a table over some of the tracks of the result.
ghost use Rattle.std.specs.Prelude.{◌≡◌, ◌<◌, ◌≤◌, ◌^◌};
ghost use Rattle.pt_sets.specs.Automata.{next_of, output_of};
ghost use Rattle.pt_sets.specs.Costs.{restricted};
ghost use Rattle.pt_product.specs.Pairs.{IsFactor};

use crate::side::Side;
use pt_tables::Table;
use std::marker::Model;

/// A state of a reduced table whose track i is track `map[i]` of the result.
#[derive(Drop)]
pub(crate) struct Factor {
    table: Table,
    start: u32,
    side: Side,
}

impl Model for Factor {
    ghost use Rattle.std.specs.Prelude.{◌≡◌};
    ghost use Rattle.pt_product.specs.Pairs.{OneFactor, IsFactor};

    ghost Value = { OneFactor };

    ghost view = { λ f. record { table = f.table; start = f.start; map = f.side.map; tracks = f.side.tracks } };

    ghost invariant = { λ f. IsFactor (record { table = f.table; start = f.start; map = f.side.map; tracks = f.side.tracks }) × (f.side.handle.tracks ≡ f.table.tracks) };
}

impl Factor {
    /// A state of a reduced table, with the letters of the result restricted by a side of as many tracks as the table.
    pub(crate) fn new(table: Table, start: u32, side: Side) -> Factor
        requires factor { IsFactor (record { table = table; start = start; map = side.map; tracks = side.tracks }) }
        requires tracks { side.handle.tracks ≡ table.tracks }
        ensures { result ≡ record { table = table; start = start; map = side.map; tracks = side.tracks } }
    {
        Factor { table, start, side }
    }

    pub(crate) fn start(&self) -> u32
        ensures { result ≡ self.now.start }
    {
        self.start
    }

    /// The number of letters of the result.
    pub(crate) fn letters(&self) -> u16
        requires { self.now.tracks ≤ 10 }
        ensures { result ≡ 2 ^ self.now.tracks }
    {
        self.side.letters()
    }

    /// The successor of a state by a letter of the result.
    pub(crate) fn next(&self, state: u32, letter: u16) -> u32
        requires state { state < self.now.table.states }
        requires letter { letter < 2 ^ self.now.tracks }
        ensures { result ≡ next_of self.now.table state (restricted self.now.map letter) }
    {
        self.table.next(state, self.side.restricted(letter))
    }

    /// The output of a state at a sign of the result.
    pub(crate) fn answer(&self, state: u32, sign: u16) -> bool
        requires state { state < self.now.table.states }
        requires sign { sign < 2 ^ self.now.tracks }
        ensures { result ≡ output_of self.now.table state (restricted self.now.map sign) }
    {
        self.table.output(state, self.side.restricted(sign))
    }
}
