// Lists of shards against plain lists of numbers.
ghost use Rattle.std.specs.Prelude.{◌<◌, length};
ghost use Rattle.pt_shards.specs.Shards.{Begins};

use crate::hashed::HashedCode;
use crate::shard::{MAX_CODES, Shard};
use pt_code::{NoMemory, read_code};
use std::alloc::{AllocError, Global};
use std::sync::Arc;
use std::test::Fail;

// A code without tracks that differs from the others in its height alone.
fn code_of_height(alloc: Global, height: u32) -> Result<HashedCode, Fail> {
    let code = read_code(alloc, &[0, 1, height, 0, 0, 0])?;
    Ok(HashedCode::new(Arc::new(alloc, code).map_err(AllocError::from)?))
}

// Pushes a code, while there is room.
fn push_one(shard: &mut Shard, code: &HashedCode) -> Result<(), NoMemory>
    ensures { Begins shard.old shard.new }
{
    if shard.len() >= MAX_CODES {
        return Ok(());
    }
    shard.push(code.try_clone()?)
}

// Splits a list, pushes a code to the second, and joins it.
fn grow_second(alloc: Global, shard: &mut Shard, code: &HashedCode) -> Result<(), NoMemory> {
    let mut other = shard.split(alloc)?;
    push_one(&mut other, code)?;
    shard.join(other);
    Ok(())
}

// Splits a list, pushes a code to the first, and joins the second.
fn grow_first(alloc: Global, shard: &mut Shard, code: &HashedCode) -> Result<(), NoMemory> {
    let other = shard.split(alloc)?;
    push_one(shard, code)?;
    shard.join(other);
    Ok(())
}

// Splits a list and joins it.
fn split_and_join(alloc: Global, shard: &mut Shard) -> Result<(), NoMemory> {
    let other = shard.split(alloc)?;
    shard.join(other);
    Ok(())
}

// Whether the list has the codes of these heights.
fn has_heights(shard: &Shard, heights: &[u32]) -> bool {
    for index in 0..shard.len() {
        let code = shard.code(index).map(|code| code.height());
        if code.as_ref() != heights.get(index as usize) {
            return false;
        }
    }
    shard.len() as usize == heights.len() && shard.code(shard.len()).is_none()
}

// Whether the list finds each code where its height is first.
fn finds_first(shard: &Shard, codes: &[HashedCode], heights: &[u32]) -> bool {
    for code in codes {
        let height = code.code().height();
        let first = heights.iter().position(|other| *other == height);
        let found = shard.find(code.code());
        if found.map(|index| index as usize) != first || shard.find_hashed(code) != found {
            return false;
        }
    }
    true
}

// One step of a random walk: a push, alone or between a split and the join. Some of the lists that were split off are
// kept, so that the base has other holders.
fn walk_step(
    alloc: Global,
    shard: &mut Shard,
    kept: &mut Vec<Shard>,
    code: &HashedCode,
    turn: u64,
) -> Result<(), Fail> {
    match turn {
        0 => grow_first(alloc, shard, code)?,
        1 => grow_second(alloc, shard, code)?,
        2 => {
            kept.push(shard.split(alloc)?)?;
            push_one(shard, code)?;
        }
        3 => {
            kept.clear();
            push_one(shard, code)?;
        }
        _ => push_one(shard, code)?,
    }
    Ok(())
}

// Walks on by one of the codes, and compares the lists.
fn walk_on(
    alloc: Global,
    shard: &mut Shard,
    kept: &mut Vec<Shard>,
    heights: &mut Vec<u32>,
    codes: &[HashedCode],
    random: u64,
) -> Result<bool, Fail> {
    if let Some(code) = codes.get((random >> 33) as usize % 40) {
        walk_step(alloc, shard, kept, code, random >> 60)?;
        heights.push(code.code().height())?;
    }
    Ok(has_heights(shard, heights) && finds_first(shard, codes, heights))
}

#[test]
fn lists_are_plain_lists(rt: HostRuntime) -> Result<(), Fail> {
    let alloc = rt.alloc();
    let mut codes = Vec::new(alloc);
    for height in 0..40u32 {
        codes.push(code_of_height(alloc, height)?)?;
    }
    let mut shard = Shard::new(alloc)?;
    let mut kept = Vec::new(alloc);
    let mut heights = Vec::new(alloc);
    let mut random = 1u64;
    for _ in 0..1_000 {
        random = random
            .wrapping_mul(6_364_136_223_846_793_005)
            .wrapping_add(1_442_695_040_888_963_407);
        assert!(rt; walk_on(alloc, &mut shard, &mut kept, &mut heights, &codes, random)?);
    }
    Ok(())
}

#[test]
fn a_thousand_splits_of_a_hundred_thousand_codes(rt: HostRuntime) -> Result<(), Fail> {
    let alloc = rt.alloc();
    let mut shard = Shard::new(alloc)?;
    for height in 0..100_000u32 {
        push_one(&mut shard, &code_of_height(alloc, height)?)?;
    }
    for _ in 0..1_000 {
        split_and_join(alloc, &mut shard)?;
    }
    let last = code_of_height(alloc, 99_999)?;
    assert!(rt; shard.len() == 100_000 && shard.find_hashed(&last) == Some(99_999));
    Ok(())
}
