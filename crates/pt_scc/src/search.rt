//! A depth-first search that cuts a graph into strongly connected components: the path-based algorithm of Gabow
//! ("Path-based depth-first search for strong and biconnected components", 2000).

ghost use Rattle.std.specs.Prelude.{◌≡◌, ◌≢◌, ℕ, ◌+◌, ◌-◌, ◌*◌, ◌<◌, ◌≤◌, List, [], ◌∷◌, ◌++◌, length, slice_index, slice_set, take, drop, IfOk, OnOk, IsTrue, vec_len};
ghost use Rattle.std.specs.List.{All, Contains};
ghost use Rattle.pt_scc.specs.Searching.{IsSearch, IsGraph, Leads, end_of, mark_of, last_of, innermost, unseen, StaysFound, Closes, Meets};
ghost use Rattle.pt_scc.specs.Components.{lists_of};
ghost use Rattle.pt_scc.specs.Components.{AreComponents};

use std::alloc::{AllocError, Global};

/// What the search knows of a state.
#[derive(Clone, Copy, Debug, PartialEq, Eq)]
pub(crate) enum Mark {
    New,
    /// On the stack, at this place.
    Open(usize),
    /// In this part.
    Closed(usize),
}

/// A search under way.
#[derive(Drop)]
pub(crate) struct Search {
    marks: Vec<Mark>,
    /// How many edges of each state were looked at.
    seen: Vec<usize>,
    /// The states that are not in a part yet, in the order in which they were found.
    stack: Vec<u32>,
    /// The places of the stack at which its segments begin: what stands in one segment is strongly connected.
    starts: Vec<usize>,
    /// The places of the states that the search stands in, the last one innermost.
    path: Vec<usize>,
    parts: Vec<Vec<u32>>,
}

impl Search {
    /// A search of which nothing is done yet.
    fn new(alloc: Global, states: usize) -> Result<Search, AllocError>
        ensures begun { IfOk result (λ s. (k : ℕ) (next : List ℕ) → IsSearch states k next s) }
        ensures idle { IfOk result (λ s. (length s.stack.items ≡ 0) × (length s.path.items ≡ 0)) }
    {
        Ok(Search {
            marks: vec![in alloc; Mark::New; states]?,
            seen: vec![in alloc; 0; states]?,
            stack: Vec::new(alloc),
            starts: Vec::new(alloc),
            path: Vec::new(alloc),
            parts: Vec::new(alloc),
        })
    }

    /// The innermost state of the path.
    fn state(&self) -> u32
        requires path { 0 < length self.now.path.items }
        requires stack { last_of self.now.path.items < length self.now.stack.items }
        ensures { result ≡ innermost self.now }
    {
        let place = self.path[self.path.len() - 1];
        self.stack[place]
    }

    /// Puts a new state on the stack as a segment of its own, and steps into it.
    fn visit(&mut self, state: u32) -> Result<(), AllocError>
        requires { state < length self.old.marks.items }
        ensures stack { OnOk result (self.new.stack.items ≡ self.old.stack.items ++ state ∷ []) }
        ensures starts { OnOk result (self.new.starts.items ≡ self.old.starts.items ++ length self.old.stack.items ∷ []) }
        ensures path { OnOk result (self.new.path.items ≡ self.old.path.items ++ length self.old.stack.items ∷ []) }
        ensures marks { OnOk result (self.new.marks.items ≡ slice_set self.old.marks.items state (Mark.Open (length self.old.stack.items))) }
        ensures seen { OnOk result (self.new.seen.items ≡ self.old.seen.items) }
        ensures parts { OnOk result (self.new.parts.items ≡ self.old.parts.items) }
    {
        let place = self.stack.len();
        self.stack.push(state)?;
        self.starts.push(place)?;
        self.path.push(place)?;
        self.marks[state as usize] = Mark::Open(place);
        Ok(())
    }

    /// Takes the innermost state off the path; where it begins a segment, that segment becomes a part.
    fn step_out(&mut self) -> Result<(), AllocError>
        requires path { 0 < length self.old.path.items }
        requires starts { 0 < length self.old.starts.items }
        requires stack { last_of self.old.path.items < length self.old.stack.items }
        requires marks { All (λ q. q < length self.old.marks.items) self.old.stack.items }
        ensures seen { OnOk result (self.new.seen.items ≡ self.old.seen.items) }
        ensures path { OnOk result (self.new.path.items ≡ take (length self.old.path.items - 1) self.old.path.items) }
        ensures stays { OnOk result (last_of self.old.starts.items ≢ last_of self.old.path.items → (self.new.marks.items ≡ self.old.marks.items) × (self.new.stack.items ≡ self.old.stack.items) × (self.new.starts.items ≡ self.old.starts.items) × (self.new.parts.items ≡ self.old.parts.items)) }
        ensures closes { OnOk result (last_of self.old.starts.items ≡ last_of self.old.path.items → Closes self.old self.new (last_of self.old.path.items)) }
    {
        let place = self.path[self.path.len() - 1];
        self.path.pop();
        if self.starts[self.starts.len() - 1] == place {
            self.close(place)?;
        }
        Ok(())
    }

    /// Makes a part of the innermost segment.
    fn close(&mut self, place: usize) -> Result<(), AllocError>
        requires starts { 0 < length self.old.starts.items }
        requires stack { place < length self.old.stack.items }
        requires marks { All (λ q. q < length self.old.marks.items) self.old.stack.items }
        ensures seen { OnOk result (self.new.seen.items ≡ self.old.seen.items) }
        ensures path { OnOk result (self.new.path.items ≡ self.old.path.items) }
        ensures closes { OnOk result (Closes self.old self.new place) }
    {
        self.starts.pop();
        let part = self.stack.split_off(place)?;
        mark_closed(&mut self.marks, &part, self.parts.len());
        self.parts.push(part)?;
        Ok(())
    }

    /// Takes note that an edge leads from the innermost state to this one.
    fn meet(
        &mut self,
        next: &[u32],
        states: usize,
        letters: usize,
        target: u32,
    ) -> Result<(), AllocError>
        requires search { IsSearch states letters next.now self.old }
        requires path { 0 < length self.old.path.items }
        requires target { target < states }
        requires edge { Leads letters (end_of next.now letters) (innermost self.old) target }
        ensures search { OnOk result (IsSearch states letters next.now self.new) }
        ensures met { OnOk result (Meets self.old self.new target) }
    {
        match self.marks[target as usize] {
            Mark::New => self.visit(target)?,
            Mark::Open(place) => cut_above(&mut self.starts, place),
            Mark::Closed(_) => {}
        }
        Ok(())
    }

    /// Looks at the next edge of the innermost state.
    fn look(&mut self, next: &[u32], states: usize, letters: usize) -> Result<(), AllocError>
        requires graph { IsGraph states letters next.now }
        requires search { IsSearch states letters next.now self.old }
        requires path { 0 < length self.old.path.items }
        requires more { slice_index self.old.seen.items (innermost self.old) < letters }
        ensures search { OnOk result (IsSearch states letters next.now self.new) }
        ensures found { OnOk result (StaysFound self.old self.new) }
        ensures looked { OnOk result (unseen letters self.new + 1 ≡ unseen letters self.old) }
        ensures path { OnOk result (length self.new.path.items ≤ length self.old.path.items + 1) }
    {
        let state = self.state();
        let letter = self.seen[state as usize];
        let target = end_at(next, states, letters, state, letter);
        self.meet(next, states, letters, target)?;
        self.seen[state as usize] = letter + 1;
        Ok(())
    }

    /// Leaves the innermost state, all of whose edges were looked at.
    fn leave(&mut self, next: &[u32], states: usize, letters: usize) -> Result<(), AllocError>
        requires search { IsSearch states letters next.now self.old }
        requires path { 0 < length self.old.path.items }
        requires done { letters ≤ slice_index self.old.seen.items (innermost self.old) }
        ensures search { OnOk result (IsSearch states letters next.now self.new) }
        ensures found { OnOk result (StaysFound self.old self.new) }
        ensures seen { OnOk result (self.new.seen.items ≡ self.old.seen.items) }
        ensures path { OnOk result (length self.new.path.items + 1 ≡ length self.old.path.items) }
    {
        self.step_out()?;
        Ok(())
    }

    /// Searches until the path is left.
    fn finish(&mut self, next: &[u32], states: usize, letters: usize) -> Result<(), AllocError>
        requires graph { IsGraph states letters next.now }
        requires search { IsSearch states letters next.now self.old }
        ensures search { OnOk result (IsSearch states letters next.now self.new) }
        ensures found { OnOk result (StaysFound self.old self.new) }
        ensures idle { OnOk result (length self.new.path.items ≡ 0) }
    {
        while self.path.len() > 0 {
            let state = self.state();
            if self.seen[state as usize] < letters {
                self.look(next, states, letters)?;
            } else {
                self.leave(next, states, letters)?;
            }
        }
        Ok(())
    }

    /// Finds all states that the root reaches.
    fn explore(
        &mut self,
        next: &[u32],
        states: usize,
        letters: usize,
        root: u32,
    ) -> Result<(), AllocError>
        requires graph { IsGraph states letters next.now }
        requires search { IsSearch states letters next.now self.old }
        requires idle { length self.old.path.items ≡ 0 }
        requires root { root < states }
        ensures search { OnOk result (IsSearch states letters next.now self.new) }
        ensures idle { OnOk result (length self.new.path.items ≡ 0) }
        ensures found { OnOk result (StaysFound self.old self.new) }
        ensures root { OnOk result (mark_of self.new.marks.items root ≢ Mark.New) }
    {
        if let Mark::New = self.marks[root as usize] {
            self.visit(root)?;
            self.finish(next, states, letters)?;
        }
        Ok(())
    }
}

/// The strongly connected components of the graph on `states` states where state q has the edges
/// `next[q * letters..(q + 1) * letters]`. Linear in states plus edges.
pub(crate) fn strong_parts(
    alloc: Global,
    next: &[u32],
    states: u32,
    letters: usize,
) -> Result<Vec<Vec<u32>>, AllocError>
    requires { IsGraph states letters next.now }
    ensures { IfOk result (λ parts. AreComponents states (Leads letters (end_of next.now letters)) (lists_of parts.items)) }
{
    let mut search = Search::new(alloc, states as usize)?;
    for root in 0..states {
        search.explore(next, states as usize, letters, root)?;
    }
    let Search { parts, .. } = search;
    Ok(parts)
}

/// Where an edge leads.
fn end_at(next: &[u32], states: usize, letters: usize, state: u32, letter: usize) -> u32
    requires graph { IsGraph states letters next.now }
    requires state { state < states }
    requires letter { letter < letters }
    ensures end { result ≡ end_of next.now letters state letter }
    ensures inside { result < states }
{
    next[state as usize * letters + letter]
}

/// Marks the states of a part.
fn mark_closed(marks: &mut Vec<Mark>, part: &[u32], number: usize)
    requires { All (λ q. q < length marks.old.items) part.now }
    ensures len { length marks.new.items ≡ length marks.old.items }
    ensures inside { (q : ℕ) → Contains part.now q → mark_of marks.new.items q ≡ Mark.Closed number }
    ensures others { (q : ℕ) → ¬ Contains part.now q → mark_of marks.new.items q ≡ mark_of marks.old.items q }
{
    for q in part {
        marks[*q as usize] = Mark::Closed(number);
    }
}

/// Takes away the numbers at the end that are above `most`.
fn cut_above(numbers: &mut Vec<usize>, most: usize)
    ensures front { numbers.new.items ≡ take (length numbers.new.items) numbers.old.items }
    ensures low { 0 < length numbers.new.items → last_of numbers.new.items ≤ most }
    ensures above { (i : ℕ) → length numbers.new.items ≤ i → i < length numbers.old.items → most < slice_index numbers.old.items i }
{
    let mut kept = numbers.len();
    while kept > 0 && numbers[kept - 1] > most {
        kept -= 1;
    }
    numbers.truncate(kept);
}

#[cfg(test)]
mod tests {
    use super::*;
    use std::test::Fail;

    /// Whether a table of ends has a row for each state, and each end is a state.
    fn is_graph(next: &[u32], states: u32, letters: usize) -> bool
        requires { letters < 1024 }
        ensures { IsTrue result → IsGraph states letters next.now }
    {
        if next.len() != states as usize * letters {
            return false;
        }
        for end in next {
            if *end >= states {
                return false;
            }
        }
        true
    }

    /// Which states reach which, by squaring until nothing changes: row q has the states that q reaches.
    fn closure(
        alloc: Global,
        next: &[u32],
        states: usize,
        letters: usize,
    ) -> Result<Vec<bool>, AllocError> {
        let size = states.saturating_mul(states);
        let mut reach = vec![in alloc; false; size]?;
        for q in 0..states {
            for l in 0..letters {
                if let Some(end) = next.get(q.saturating_mul(letters).saturating_add(l)) {
                    put(
                        &mut reach,
                        q.saturating_mul(states).saturating_add(*end as usize),
                    );
                }
            }
            put(&mut reach, q.saturating_mul(states).saturating_add(q));
        }
        for m in 0..states {
            for q in 0..states {
                for r in 0..states {
                    if get(&reach, q, m, states) && get(&reach, m, r, states) {
                        put(&mut reach, q.saturating_mul(states).saturating_add(r));
                    }
                }
            }
        }
        Ok(reach)
    }

    fn put(cells: &mut Vec<bool>, at: usize) {
        if let Some(cell) = cells.get_mut(at) {
            *cell = true;
        }
    }

    fn get(cells: &[bool], q: usize, r: usize, states: usize) -> bool {
        cells
            .get(q.saturating_mul(states).saturating_add(r))
            .copied()
            .unwrap_or(false)
    }

    /// The number of the part of each state, or `None` where a state stands in none or in two.
    fn numbers(
        alloc: Global,
        parts: &[Vec<u32>],
        states: usize,
    ) -> Result<Option<Vec<usize>>, AllocError> {
        let mut numbers = vec![in alloc; usize::MAX; states]?;
        for (i, part) in parts.iter().enumerate() {
            for q in part {
                match numbers.get_mut(*q as usize) {
                    Some(number) if *number == usize::MAX => *number = i,
                    _ => return Ok(None),
                }
            }
        }
        if numbers.contains(&usize::MAX) {
            return Ok(None);
        }
        Ok(Some(numbers))
    }

    /// Whether the parts are those of the slow closure, each edge going to the same part or an earlier one.
    fn agrees(alloc: Global, next: &[u32], states: u32, letters: usize) -> Result<bool, AllocError>
        requires { letters < 1024 }
    {
        if !is_graph(next, states, letters) {
            return Ok(false);
        }
        let parts = strong_parts(alloc, next, states, letters)?;
        let Some(numbers) = numbers(alloc, &parts, states as usize)? else {
            return Ok(false);
        };
        let reach = closure(alloc, next, states as usize, letters)?;
        for (q, part) in numbers.iter().enumerate() {
            for (r, other) in numbers.iter().enumerate() {
                let forth = get(&reach, q, r, states as usize);
                let back = get(&reach, r, q, states as usize);
                if (part == other) != (forth && back) || (forth && other > part) {
                    return Ok(false);
                }
            }
        }
        Ok(true)
    }

    #[test]
    fn random_graphs_agree(rt: HostRuntime) -> Result<(), Fail> {
        let mut seed = 1u32;
        for round in 0..300u32 {
            let states = 1 + round % 9;
            let letters = 1 + (round as usize / 9) % 3;
            let mut next = Vec::new(rt.alloc());
            for _ in 0..states as usize * letters {
                seed = seed.wrapping_mul(1_664_525).wrapping_add(1_013_904_223);
                next.push((seed / 65536) % states)?;
            }
            assert!(rt;
                agrees(rt.alloc(), &next, states, letters)?,
                "round {round}"
            );
        }
        Ok(())
    }
}
