// Passes over one shard against plain lists, and passes of two threads against each other.
ghost use Rattle.std.specs.Prelude.{◌≤◌, IfOk};
ghost use Rattle.pt_cells.specs.Seeing.{IsOf};

use crate::*;
use pt_code::{Code, read_code};
use pt_shards::{HashedCode, MAX_CODES};
use std::alloc::{AllocError, Global};
use std::sync::Arc;
use std::test::Fail;
use std::thread::Threads;
use std::{mem, thread};

// A shard and its passes. The walks below stand over this alone, so that their proofs do not look into a shard.
trait Walks: Sync + Drop {
    type Pass: Drop + Send;

    // The pass came from this shard.
    ghost owns: { Self → Self.Pass → Type 0 };

    fn new(alloc: Global, limit: u32) -> Self
        requires { limit ≤ MAX_CODES };

    fn limit(&self) -> u32;

    fn pass(&self, alloc: Global) -> Result<Self::Pass, CellFault>
        ensures { IfOk result (λ pass. owns self.now pass) };

    fn intern(
        &self,
        alloc: Global,
        pass: &mut Self::Pass,
        code: &HashedCode,
    ) -> Result<u32, CellFault>
        requires { owns self.now pass.old }
        ensures { owns self.now pass.new };

    fn split(&self, alloc: Global, pass: &mut Self::Pass) -> Result<Self::Pass, CellFault>
        requires { owns self.now pass.old }
        ensures kept { owns self.now pass.new }
        ensures other { IfOk result (λ other. owns self.now other) };

    fn join(&self, pass: &mut Self::Pass, other: Self::Pass)
        requires first { owns self.now pass.old }
        requires second { owns self.now other }
        ensures { owns self.now pass.new };

    fn len(pass: &Self::Pass) -> u32;

    // The height of the code at a position.
    fn height(pass: &Self::Pass, position: u32) -> Option<u32>;

    fn find(pass: &Self::Pass, code: &Code) -> Option<u32>;

    fn find_hashed(pass: &Self::Pass, code: &HashedCode) -> Option<u32>;
}

impl Walks for CellShard {
    type Pass = CellPass;

    ghost owns = { IsOf };

    fn new(alloc: Global, limit: u32) -> CellShard {
        CellShard::new(alloc, limit)
    }

    fn limit(&self) -> u32 {
        CellShard::limit(self)
    }

    fn pass(&self, alloc: Global) -> Result<CellPass, CellFault> {
        match CellShard::pass(self, alloc) {
            Ok(pass) => Ok(pass),
            Err(_) => Err(CellFault::NoMemory),
        }
    }

    fn intern(
        &self,
        alloc: Global,
        pass: &mut CellPass,
        code: &HashedCode,
    ) -> Result<u32, CellFault> {
        CellShard::intern(self, alloc, pass, code)
    }

    fn split(&self, alloc: Global, pass: &mut CellPass) -> Result<CellPass, CellFault> {
        match CellShard::split(self, alloc, pass) {
            Ok(other) => Ok(other),
            Err(_) => Err(CellFault::NoMemory),
        }
    }

    fn join(&self, pass: &mut CellPass, other: CellPass) {
        CellShard::join(self, pass, other);
    }

    fn len(pass: &CellPass) -> u32 {
        pass.len()
    }

    fn height(pass: &CellPass, position: u32) -> Option<u32> {
        match pass.code(position) {
            Some(code) => Some(code.height()),
            None => None,
        }
    }

    fn find(pass: &CellPass, code: &Code) -> Option<u32> {
        pass.find(code)
    }

    fn find_hashed(pass: &CellPass, code: &HashedCode) -> Option<u32> {
        pass.find_hashed(code)
    }
}

// A code without tracks that differs from the others in its height alone.
fn code_of_height(alloc: Global, height: u32) -> Result<HashedCode, Fail> {
    let code = read_code(alloc, &[0, 1, height, 0, 0, 0])?;
    Ok(HashedCode::new(Arc::new(alloc, code).map_err(AllocError::from)?))
}

// The codes of the heights below a number, in order.
fn codes_below(alloc: Global, heights: u32) -> Result<Vec<HashedCode>, Fail> {
    let mut codes = Vec::new(alloc);
    for height in 0..heights {
        codes.push(code_of_height(alloc, height)?)?;
    }
    Ok(codes)
}

// A new pass that interned the codes, in order or in the opposite one.
fn walk<S: Walks>(
    alloc: Global,
    shard: &S,
    codes: &[HashedCode],
    backward: bool,
) -> Result<S::Pass, CellFault>
    ensures { IfOk result (λ pass. S.owns shard.now pass) }
{
    let mut pass = shard.pass(alloc)?;
    for k in 0..codes.len() {
        let place = if backward { codes.len() - 1 - k } else { k };
        shard.intern(alloc, &mut pass, &codes[place])?;
    }
    Ok(pass)
}

// Whether a pass has just the codes of these heights, and finds each code where its height is first.
fn has_heights<S: Walks>(pass: &S::Pass, heights: &[u32], codes: &[HashedCode]) -> bool {
    for index in 0..S::len(pass) {
        if S::height(pass, index).as_ref() != heights.get(index as usize) {
            return false;
        }
    }
    for code in codes {
        let height = code.code().height();
        let first = heights.iter().position(|other| *other == height);
        let found = S::find_hashed(pass, code);
        if found.map(|index| index as usize) != first || S::find(pass, code.code()) != found {
            return false;
        }
    }
    S::len(pass) as usize == heights.len() && S::height(pass, S::len(pass)).is_none()
}

// What the cells of a shard show, and how many of them two passes saw, by plain lists.
#[derive(Drop)]
struct Plain {
    cells: Vec<u32>,
    limit: usize,
    one: usize,
    other: usize,
}

impl Plain {
    // What a code is answered that is interned through the first pass, by plain search.
    fn intern(&mut self, height: u32) -> Result<Option<usize>, Fail> {
        let mut seen = self.cells.iter().take(self.one);
        let known = seen.position(|other| *other == height);
        if known.is_some() {
            return Ok(known);
        }
        for position in self.one..self.limit {
            if position == self.cells.len() {
                self.cells.push(height)?;
            }
            self.one = position.saturating_add(1);
            if self.cells.get(position) == Some(&height) {
                return Ok(Some(position));
            }
        }
        Ok(None)
    }
}

// Splits the second pass off anew, joins it, or exchanges both.
fn move_passes<S: Walks>(
    alloc: Global,
    shard: &S,
    one: &mut S::Pass,
    other: &mut S::Pass,
    plain: &mut Plain,
    turn: u64,
) -> Result<(), Fail>
    requires one { S.owns shard.now one.old }
    requires other { S.owns shard.now other.old }
    ensures one { S.owns shard.now one.new }
    ensures other { S.owns shard.now other.new }
{
    match turn {
        0 => {
            *other = shard.split(alloc, one)?;
            plain.other = plain.one;
        }
        1 => {
            let joined = mem::replace(other, shard.pass(alloc)?);
            shard.join(one, joined);
            plain.one = plain.one.max(plain.other);
            plain.other = 0;
        }
        2..6 => {
            mem::swap(one, other);
            mem::swap(&mut plain.one, &mut plain.other);
        }
        _ => {}
    }
    Ok(())
}

// Interns a code through the first pass, and says whether answers and lists are the plain ones.
fn intern_one<S: Walks>(
    alloc: Global,
    shard: &S,
    pass: &mut S::Pass,
    plain: &mut Plain,
    codes: &[HashedCode],
    code: &HashedCode,
) -> Result<bool, Fail>
    requires { S.owns shard.now pass.old }
    ensures { S.owns shard.now pass.new }
{
    let wanted = plain.intern(code.code().height())?;
    let same = match shard.intern(alloc, pass, code) {
        Ok(index) => wanted == Some(index as usize),
        Err(CellFault::Full) => wanted.is_none(),
        Err(CellFault::NoMemory) => false,
    };
    let heights = plain.cells.get(..plain.one).unwrap_or(&[]);
    Ok(same && has_heights::<S>(pass, heights, codes))
}

// Whether a random walk by two passes of a new shard goes as by plain lists.
fn goes_plain<S: Walks>(
    alloc: Global,
    shard: &S,
    codes: &[HashedCode],
    random: &mut u64,
) -> Result<bool, Fail> {
    let mut one = shard.pass(alloc)?;
    let mut other = shard.pass(alloc)?;
    let mut plain = Plain {
        cells: Vec::new(alloc),
        limit: shard.limit() as usize,
        one: 0,
        other: 0,
    };
    for _ in 0..300 {
        *random = random
            .wrapping_mul(6_364_136_223_846_793_005)
            .wrapping_add(1_442_695_040_888_963_407);
        move_passes(
            alloc,
            shard,
            &mut one,
            &mut other,
            &mut plain,
            *random >> 60,
        )?;
        let code = codes.get((*random >> 33) as usize % 24).ok_or("codes")?;
        if !intern_one(alloc, shard, &mut one, &mut plain, codes, code)? {
            return Ok(false);
        }
    }
    Ok(true)
}

// The first limit from 1 to 25 at which a random walk goes otherwise than by plain lists.
fn first_wrong_limit<S: Walks>(alloc: Global) -> Result<Option<u32>, Fail> {
    let codes = codes_below(alloc, 24)?;
    let mut random = 1u64;
    for limit in 1..26u32 {
        let shard = S::new(alloc, limit);
        if !goes_plain(alloc, &shard, &codes, &mut random)? {
            return Ok(Some(limit));
        }
    }
    Ok(None)
}

#[test]
fn answers_are_those_of_plain_lists(rt: HostRuntime) -> Result<(), Fail> {
    assert!(rt; first_wrong_limit::<CellShard>(rt.alloc())? == None);
    Ok(())
}

// Two threads intern the codes in opposite orders. Says whether both lists are the same, with all the codes.
fn race<R: Threads + Sync, S: Walks>(
    rt: &R,
    alloc: Global,
    shard: &S,
    codes: &[HashedCode],
) -> Result<bool, CellFault> {
    let (one, other) = thread::join(
        rt,
        || -> Result<S::Pass, CellFault>
            ensures { IfOk result (λ pass. S.owns shard.entry.now pass) }
        { walk(alloc, shard, codes, false) },
        || -> Result<S::Pass, CellFault>
            ensures { IfOk result (λ pass. S.owns shard.entry.now pass) }
        { walk(alloc, shard, codes, true) },
    );
    let (mut one, other) = (one?, other?);
    let same = codes.iter().all(|code| S::find_hashed(&one, code) == S::find_hashed(&other, code));
    shard.join(&mut one, other);
    Ok(same && has_all::<S>(&one, codes))
}

// Whether a pass has just these codes, in any order.
fn has_all<S: Walks>(pass: &S::Pass, codes: &[HashedCode]) -> bool {
    S::len(pass) as usize == codes.len()
        && codes
            .iter()
            .all(|code| S::find_hashed(pass, code).is_some())
}

// Whether two threads have one list in each of many rounds.
fn race_often<R: Threads + Sync, S: Walks>(
    rt: &R,
    alloc: Global,
    rounds: u32,
) -> Result<bool, Fail> {
    let codes = codes_below(alloc, 1_100)?;
    for _ in 0..rounds {
        let shard = S::new(alloc, MAX_CODES);
        if !race(rt, alloc, &shard, &codes)? {
            return Ok(false);
        }
    }
    Ok(true)
}

#[test]
fn threads_that_race_have_one_list(rt: HostRuntime) -> Result<(), Fail> {
    assert!(rt; race_often::<HostRuntime, CellShard>(&rt, rt.alloc(), 100)?);
    Ok(())
}

// Whether a shard takes as many codes as its limit, and refuses the one behind them.
fn refuses_past<S: Walks>(alloc: Global, codes: &[HashedCode], limit: u16) -> Result<bool, Fail> {
    let shard = S::new(alloc, u32::from(limit));
    let fitting = codes.get(..usize::from(limit)).ok_or("codes")?;
    let next = codes.get(usize::from(limit)).ok_or("codes")?;
    let mut pass = walk(alloc, &shard, fitting, false)?;
    let refused = shard.intern(alloc, &mut pass, next);
    Ok(refused == Err(CellFault::Full) && S::len(&pass) == u32::from(limit))
}

// Whether a new pass that interns the code of a height walks to its cell.
fn walks_to<S: Walks>(
    alloc: Global,
    shard: &S,
    codes: &[HashedCode],
    height: u32,
) -> Result<bool, Fail> {
    let code = codes.get(height as usize).ok_or("codes")?;
    let mut late = shard.pass(alloc)?;
    let found = shard.intern(alloc, &mut late, code)?;
    let shown = S::height(&late, height);
    Ok(
        found == height
            && shown == Some(height)
            && S::height(&late, height.saturating_add(1)).is_none(),
    )
}

// The first of some positions that a new pass does not walk to in a shard of the full size, which holds the codes.
fn first_missed<S: Walks>(
    alloc: Global,
    codes: &[HashedCode],
    positions: &[u32],
) -> Result<Option<u32>, Fail> {
    let shard = S::new(alloc, MAX_CODES);
    let _ = walk(alloc, &shard, codes, false)?;
    for position in positions {
        if !walks_to(alloc, &shard, codes, *position)? {
            return Ok(Some(*position));
        }
    }
    Ok(None)
}

#[test]
fn walks_cross_the_ends_of_segments(rt: HostRuntime) -> Result<(), Fail> {
    let alloc = rt.alloc();
    let codes = codes_below(alloc, 3_080)?;
    let ends = [0, 1_022, 1_023, 1_024, 1_025, 3_070, 3_071, 3_072, 3_073];
    assert!(rt; first_missed::<CellShard>(alloc, &codes, &ends)? == None);
    for limit in [1_023, 1_024, 1_025, 3_071, 3_072, 3_073] {
        assert!(rt;
            refuses_past::<CellShard>(alloc, &codes, limit)?,
            "at limit {limit}"
        );
    }
    Ok(())
}
