//! Strongly connected components of an automaton's graph.
#![tactic(auto)]

mod search;

ghost use Rattle.std.specs.Prelude.{◌≡◌, ◌≤◌, ◌^◌, IfOk};
ghost use Rattle.pt_scc.specs.Components.{AreComponents, IsEdge, lists_of};

use pt_tables::{NoMemory, Table};
use search::strong_parts;
use std::alloc::Global;

/// The strongly connected components of a table: each part is a list of states, and every edge stays in its part or
/// goes to an earlier one. The order of the states within a part is not promised.
///
/// One depth-first search with explicit stacks, by the path-based algorithm (Gabow, "Path-based depth-first search for
/// strong and biconnected components", 2000). Time is linear in states times letters, memory linear in the states.
pub fn components(alloc: Global, table: &Table) -> Result<Vec<Vec<u32>>, NoMemory>
    ensures { IfOk result (λ parts. AreComponents table.now.states (IsEdge table.now) (lists_of parts.items)) }
{
    let parts = strong_parts(alloc, table.edges(), table.states(), table.letters())?;
    Ok(parts)
}

#[cfg(test)]
mod tests {
    use super::*;
    use pt_tables::Builder;
    use std::process::Abort;
    use std::test::Fail;

    /// The parts of the table of these ends, in rows of `letters` numbers.
    fn parts_of(
        alloc: Global,
        tracks: u32,
        letters: u16,
        ends: &[u32],
    ) -> Result<Vec<Vec<u32>>, Fail>
        requires tracks { tracks ≤ 10 }
        requires letters { letters ≡ 2 ^ tracks }
    {
        let mut builder = Builder::new(alloc, tracks)?;
        let states = ends.len() / letters as usize;
        if states == 0 || states > 65_536 {
            return Err("states")?;
        }
        for _ in 0..states as u32 {
            builder.state()?;
        }
        for from in 0..states as u32 {
            for letter in 0..letters {
                let cell = from as usize * letters as usize + letter as usize;
                match ends.get(cell) {
                    Some(to) if (*to as usize) < states => builder.edge(from, letter, *to),
                    _ => return Err("end")?,
                }
            }
        }
        Ok(components(alloc, &builder.finish(alloc)?)?)
    }

    /// Compares the parts of a table with these, whatever the order within a part.
    fn assert_parts(rt: &impl Abort, parts: &[Vec<u32>], wanted: &[&[u32]]) {
        assert_eq!(rt; parts.len(), wanted.len());
        for (part, states) in parts.iter().zip(wanted) {
            assert_eq!(rt; part.len(), states.len());
            assert!(rt; states.iter().all(|q| part.contains(q)), "{part:?}");
        }
    }

    #[test]
    fn small_tables(rt: HostRuntime) -> Result<(), Fail> {
        let alloc = rt.alloc();
        // State 0 is {0}, state 1 is empty.
        assert_parts(&rt, &parts_of(alloc, 1, 2, &[0, 1, 1, 1])?, &[&[1], &[0]]);
        assert_parts(&rt, &parts_of(alloc, 0, 1, &[0])?, &[&[0]]);
        // Two rings, the second of which leads to the first.
        let rings = [1, 1, 0, 0, 3, 3, 2, 1];
        assert_parts(&rt, &parts_of(alloc, 1, 2, &rings)?, &[&[0, 1], &[2, 3]]);
        // Of 256 letters one alone leads on.
        let mut ends = vec![in alloc; 0u32; 768]?;
        for (cell, end) in ends.iter_mut().enumerate() {
            *end = if cell == 255 {
                1
            } else if cell == 300 {
                0
            } else if cell < 256 {
                0
            } else if cell < 512 {
                1
            } else {
                2
            };
        }
        assert_parts(&rt, &parts_of(alloc, 8, 256, &ends)?, &[&[0, 1], &[2]]);
        Ok(())
    }

    #[test]
    fn ring_and_chain(rt: HostRuntime) -> Result<(), Fail> {
        let alloc = rt.alloc();
        let mut ring = Vec::new(alloc);
        let mut chain = Vec::new(alloc);
        for q in 0..65_536u32 {
            ring.push((q + 1) % 65_536)?;
            chain.push(if q < 65_535 { q + 1 } else { q })?;
        }
        assert_eq!(rt; parts_of(alloc, 0, 1, &ring)?.len(), 1);
        let parts = parts_of(alloc, 0, 1, &chain)?;
        assert_eq!(rt; parts.len(), 65_536);
        for (i, part) in parts.iter().enumerate() {
            assert_eq!(rt; part.len(), 1);
            assert_eq!(rt; part[0] as usize + i, 65_535);
        }
        Ok(())
    }
}
