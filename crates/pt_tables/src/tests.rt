// Tables that are given by hand.
ghost use Rattle.std.specs.Prelude.{◌≡◌, IfOk};

use crate::*;
use std::alloc::Global;
use std::test::Fail;

// {0} at state 0 and the empty set at state 1, over one track.
fn zero_and_none(alloc: Global) -> Result<Builder, NoMemory>
    ensures states { IfOk result (λ b. b.states ≡ 2) }
    ensures tracks { IfOk result (λ b. b.tracks ≡ 1) }
{
    let mut builder = Builder::new(alloc, 1)?;
    let zero = builder.state()?;
    let none = builder.state()?;
    builder.edge(zero, 0, zero);
    builder.edge(zero, 1, none);
    builder.edge(none, 0, none);
    builder.edge(none, 1, none);
    builder.output(zero, 0, true);
    Ok(builder)
}

#[test]
fn a_built_table_tells_members(rt: HostRuntime) -> Result<(), Fail> {
    let table = zero_and_none(rt.alloc())?.finish(rt.alloc())?;
    assert!(rt; table.tracks() == 1 && table.states() == 2 && table.letters() == 2);
    assert!(rt; table.next(0, 1) == 1 && table.output(0, 0) && !table.output(0, 1));
    for (x, is_zero) in [(0, true), (-1, false), (1, false), (i128::MIN, false)] {
        assert_eq!(rt; table.member(0, &[x]), is_zero, "at {x}");
    }
    Ok(())
}

#[test]
fn holes_and_breaks_of_the_sign_rule_are_refused(rt: HostRuntime) -> Result<(), Fail> {
    let alloc = rt.alloc();
    let mut hole = Builder::new(alloc, 1)?;
    let only = hole.state()?;
    hole.edge(only, 0, only);
    assert!(rt;
        hole.finish(alloc).err()
            == Some(BuildFault::Hole {
                state: 0,
                letter: 1
            })
    );
    let mut broken = zero_and_none(alloc)?;
    broken.edge(0, 0, 1);
    assert!(rt;
        broken.finish(alloc).err()
            == Some(BuildFault::SignRule {
                state: 0,
                letter: 0
            })
    );
    Ok(())
}
