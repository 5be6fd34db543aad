// The last answers, compared with a plain list that is searched whole.
ghost use Rattle.std.specs.Prelude.{◌<◌};

use crate::*;
use std::alloc::Global;
use std::test::Fail;

/// The answer to a key, which is the one that stands in the list, or else a new one; and the list behind it: this answer first, then
/// the others in their order, as many as there is room for.
fn look_up_slowly(
    alloc: Global,
    entries: &[(u32, u32)],
    capacity: usize,
    key: u32,
    fresh: u32,
) -> Result<(u32, Vec<(u32, u32)>), Fail> {
    let mut answer = fresh;
    for (other, kept) in entries {
        if *other == key {
            answer = *kept;
        }
    }
    let mut after = Vec::new(alloc);
    after.push((key, answer))?;
    for (other, kept) in entries {
        if *other != key && after.len() < capacity {
            after.push((*other, *kept))?;
        }
    }
    Ok((answer, after))
}

/// The answer to a key by a memo, which keeps a new one where it has none.
fn look_up(memo: &mut Memo<u32, u32>, key: u32, fresh: u32) -> Result<u32, Fail> {
    if let Some(answer) = memo.find(&key) {
        return Ok(answer.value);
    }
    memo.keep(
        key,
        Answer {
            value: fresh,
            cost: 3,
        },
    )?;
    Ok(fresh)
}

/// Whether a memo and the plain list have the same answers to keys that repeat unevenly, and the sum of the costs of what the memo
/// should and did build.
fn agreement(alloc: Global, room: u32) -> Result<(bool, u64, u64), Fail>
    requires { room < 100 }
{
    let mut memo = Memo::new(alloc, room as usize + 1)?;
    let mut entries = Vec::new(alloc);
    let mut agree = true;
    let mut built = 0u64;
    for fresh in 0..300u32 {
        let key = (fresh % 17 * (fresh % 5) + fresh / 40) % 8;
        let (slowly, after) = look_up_slowly(alloc, &entries, room as usize + 1, key, fresh)?;
        if look_up(&mut memo, key, fresh)? != slowly {
            agree = false;
        }
        if slowly == fresh {
            built = built.saturating_add(3);
        }
        entries = after;
    }
    Ok((agree, built, memo.built()))
}

#[test]
fn memos_answer_as_a_plain_list(rt: HostRuntime) -> Result<(), Fail> {
    for room in 0..9u32 {
        let (agree, slowly_built, built) = agreement(rt.alloc(), room)?;
        assert!(rt; agree);
        assert_eq!(rt; built, slowly_built);
        assert!(rt; built > 20);
    }
    Ok(())
}

#[test]
fn an_answer_costs_what_it_cost(rt: HostRuntime) -> Result<(), Fail> {
    let answer = Answer {
        value: 'a',
        cost: 4,
    };
    assert_eq!(rt; answer.within(4), Some('a'));
    assert_eq!(rt; answer.within(3), None);
    Ok(())
}
