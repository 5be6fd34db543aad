// Tables.
ghost use Rattle.std.specs.Prelude.{◌≡◌, ◌↔◌, ◌<◌, ◌^◌, length, IsTrue};
ghost use Rattle.pt_sets.specs.Automata.{next_of, output_of, SetOfState, IsAutomaton};

use crate::digits::{are_signs_behind, letter_at};
use std::marker::Model;

/// An automaton: the output of state q at sign s stands at `q * 2^tracks + s`, successors likewise.
#[derive(Drop)]
pub struct Table {
    pub(crate) tracks: u32,
    pub(crate) states: u32,
    pub(crate) outputs: Vec<bool>,
    pub(crate) edges: Vec<u32>,
}

impl Model for Table {
    ghost use Rattle.pt_sets.specs.Automata.{Automaton, IsAutomaton};

    ghost Value = { Automaton };

    ghost view = { λ t. record { tracks = t.tracks; states = t.states; outputs = t.outputs.items; edges = t.edges.items } };

    ghost invariant = { λ t. IsAutomaton (record { tracks = t.tracks; states = t.states; outputs = t.outputs.items; edges = t.edges.items }) };
}

impl Table {
    /// A law, which does nothing: each table is an automaton.
    pub fn is_automaton(&self)
        ensures { IsAutomaton self.now }
    {
        // The invariant of a type is known where one of its fields is used.
        let _ = &self.tracks;
    }

    /// How many tracks.
    pub fn tracks(&self) -> u32
        ensures tracks { result ≡ self.now.tracks }
        ensures valid { IsAutomaton self.now }
    {
        self.tracks
    }

    /// How many states.
    pub fn states(&self) -> u32
        ensures states { result ≡ self.now.states }
        ensures valid { IsAutomaton self.now }
    {
        self.states
    }

    /// How many letters there are, `2^tracks`.
    pub fn letters(&self) -> usize
        ensures letters { result ≡ 2 ^ self.now.tracks }
        ensures valid { IsAutomaton self.now }
    {
        1usize << self.tracks
    }

    /// The outputs in rows of `2^tracks`, a row a state, a cell a sign.
    pub fn outputs(&self) -> &[bool]
        ensures value { result.now ≡ self.now.outputs }
        ensures valid { IsAutomaton self.now }
    {
        self.outputs.as_slice()
    }

    /// The successors in rows of `2^tracks`, a row a state, a cell a letter.
    pub fn edges(&self) -> &[u32]
        ensures value { result.now ≡ self.now.edges }
        ensures valid { IsAutomaton self.now }
    {
        self.edges.as_slice()
    }

    /// The table of rows that are known to be an automaton: outputs and successors in rows of `2^tracks`, a row a state.
    pub fn from_parts(tracks: u32, states: u32, outputs: Vec<bool>, edges: Vec<u32>) -> Table
        requires { IsAutomaton (record { tracks = tracks; states = states; outputs = outputs.items; edges = edges.items }) }
        ensures { result ≡ record { tracks = tracks; states = states; outputs = outputs.items; edges = edges.items } }
    {
        Table {
            tracks,
            states,
            outputs,
            edges,
        }
    }

    /// The successor by a letter.
    pub fn next(&self, state: u32, letter: u16) -> u32
        requires state { state < self.now.states }
        requires letter { letter < 2 ^ self.now.tracks }
        ensures { result ≡ next_of self.now state letter }
    {
        self.edges[state as usize * (1usize << self.tracks) + letter as usize]
    }

    /// Whether the vector of a sign is in the set.
    pub fn output(&self, state: u32, sign: u16) -> bool
        requires state { state < self.now.states }
        requires sign { sign < 2 ^ self.now.tracks }
        ensures { result ≡ output_of self.now state sign }
    {
        self.outputs[state as usize * (1usize << self.tracks) + sign as usize]
    }

    /// Whether a vector is in the set of a state. At most 128 steps.
    pub fn member(&self, state: u32, z: &[i128]) -> bool
        requires state { state < self.now.states }
        requires components { length z.now ≡ self.now.tracks }
        ensures { IsTrue result ↔ SetOfState self.now state z.now }
    {
        self.is_automaton();
        let mut reached = state;
        let mut k = 0;
        while !are_signs_behind(z, k) {
            reached = self.next(reached, letter_at(z, k));
            k += 1;
        }
        self.output(reached, letter_at(z, k))
    }
}
