// Building tables.
ghost use Rattle.std.specs.Prelude.{◌≡◌, ◌+◌, ◌*◌, ◌≤◌, ◌<◌, ◌^◌, ◌++◌, [], replicate, slice_set, false, IfOk, IfErr, OnErr};
ghost use Rattle.std.specs.Prelude.{ℕ, ◌%◌, length, map, slice_index, IfSome, IfNone, IsTrue, ◌↔◌, ◌≢◌};
ghost use Rattle.pt_tables.specs.Building.{IsBuilt, IsBuildCause, IsHoleCause, IsFirstCell, BreaksCell};

use crate::fault::BuildFault;
use crate::table::Table;
use pt_digits::NoMemory;
use std::alloc::Global;
use std::marker::Model;

/// A table that is being built.
#[derive(Drop)]
pub struct Builder {
    tracks: u32,
    states: u32,
    outputs: Vec<bool>,
    edges: Vec<Option<u32>>,
}

impl Model for Builder {
    ghost use Rattle.pt_tables.specs.Building.{Draft, IsDraft};

    ghost Value = { Draft };

    ghost view = { λ b. record { tracks = b.tracks; states = b.states; outputs = b.outputs.items; edges = b.edges.items } };

    ghost invariant = { λ b. IsDraft (record { tracks = b.tracks; states = b.states; outputs = b.outputs.items; edges = b.edges.items }) };
}

impl Builder {
    /// A builder without states.
    pub fn new(alloc: Global, tracks: u32) -> Result<Builder, NoMemory>
        requires { tracks ≤ 10 }
        ensures { IfOk result (λ b. b ≡ record { tracks = tracks; states = 0; outputs = []; edges = [] }) }
    {
        Ok(Builder {
            tracks,
            states: 0,
            outputs: Vec::new(alloc),
            edges: Vec::new(alloc),
        })
    }

    /// Adds a state without edges, whose outputs are false.
    pub fn state(&mut self) -> Result<u32, NoMemory>
        requires { self.old.states < 65536 }
        ensures number { IfOk result (λ q. q ≡ self.old.states) }
        ensures ok { IfOk result (λ q. self.new ≡ record self.old { states = self.old.states + 1; outputs = self.old.outputs ++ replicate (2 ^ self.old.tracks) false; edges = self.old.edges ++ replicate (2 ^ self.old.tracks) None }) }
        ensures err { OnErr result (self.new ≡ self.old) }
    {
        let size = (self.states as usize + 1) << self.tracks;
        self.outputs.resize(size, false)?;
        if self.edges.resize(size, None).is_err() {
            self.outputs.truncate(size - (1usize << self.tracks));
            return Err(NoMemory);
        }
        let number = self.states;
        self.states += 1;
        Ok(number)
    }

    /// Gives the edge of a state by a letter.
    pub fn edge(&mut self, from: u32, letter: u16, to: u32)
        requires from { from < self.old.states }
        requires letter { letter < 2 ^ self.old.tracks }
        requires to { to < self.old.states }
        ensures { self.new ≡ record self.old { edges = slice_set self.old.edges (from * 2 ^ self.old.tracks + letter) (Some to) } }
    {
        self.edges[from as usize * (1usize << self.tracks) + letter as usize] = Some(to);
    }

    /// Gives the output of a state at a sign.
    pub fn output(&mut self, state: u32, sign: u16, value: bool)
        requires state { state < self.old.states }
        requires sign { sign < 2 ^ self.old.tracks }
        ensures { self.new ≡ record self.old { outputs = slice_set self.old.outputs (state * 2 ^ self.old.tracks + sign) value } }
    {
        self.outputs[state as usize * (1usize << self.tracks) + sign as usize] = value;
    }

    /// The table that was given, or the first hole, or without holes the first break of the sign rule.
    pub fn finish(self, alloc: Global) -> Result<Table, BuildFault>
        requires { 0 < self.states }
        ensures ok { IfOk result (IsBuilt self) }
        ensures err { IfErr result (IsBuildCause self) }
    {
        let edges = match targets(alloc, self.edges.as_slice(), self.tracks) {
            Ok(edges) => edges,
            Err(fault) => return Err(fault),
        };
        if let Some((state, letter)) = first_break(
            self.outputs.as_slice(),
            edges.as_slice(),
            self.tracks,
        ) {
            return Err(BuildFault::SignRule { state, letter });
        }
        let Builder {
            tracks,
            states,
            outputs,
            edges: _,
        } = self;
        Ok(Table {
            tracks,
            states,
            outputs,
            edges,
        })
    }
}

/// Where the edges lead, or the first that is not given.
fn targets(alloc: Global, edges: &[Option<u32>], tracks: u32) -> Result<Vec<u32>, BuildFault>
    requires tracks { tracks ≤ 10 }
    requires cells { length edges.now ≤ 65536 * 2 ^ tracks }
    ensures ok { IfOk result (λ v. map Some v.items ≡ edges.now) }
    ensures err { IfErr result (IsHoleCause tracks edges.now) }
{
    let mut found = Vec::new(alloc);
    for (i, edge) in edges.iter().enumerate() {
        match *edge {
            Some(to) => found.push(to)?,
            None => {
                return Err(BuildFault::Hole {
                    state: (i / (1usize << tracks)) as u32,
                    letter: (i % (1usize << tracks)) as u16,
                });
            }
        }
    }
    Ok(found)
}

/// The first state and letter that break the sign rule.
fn first_break(outputs: &[bool], edges: &[u32], tracks: u32) -> Option<(u32, u16)>
    requires tracks { tracks ≤ 10 }
    requires cells { length edges.now ≤ 65536 * 2 ^ tracks }
    requires same { length outputs.now ≡ length edges.now }
    requires closed { (i : ℕ) → i < length edges.now → slice_index edges.now i * 2 ^ tracks + i % 2 ^ tracks < length edges.now }
    ensures some { IfSome result (λ found. IsFirstCell tracks (length edges.now) (BreaksCell tracks outputs.now edges.now) found.0 found.1) }
    ensures none { IfNone result ((i : ℕ) → i < length edges.now → ¬ BreaksCell tracks outputs.now edges.now i) }
{
    for (i, to) in edges.iter().enumerate() {
        let letter = i % (1usize << tracks);
        let here = outputs[i];
        let there = outputs[*to as usize * (1usize << tracks) + letter];
        if are_different(here, there) {
            return Some(((i / (1usize << tracks)) as u32, letter as u16));
        }
    }
    None
}

fn are_different(here: bool, there: bool) -> bool
    ensures { IsTrue result ↔ (here ≢ there) }
{
    here != there
}
