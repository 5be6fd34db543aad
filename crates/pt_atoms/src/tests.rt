// Worked normal forms, residuals and tables, and a comparison of tables with plain arithmetic.
ghost use Rattle.std.specs.Prelude.{◌≡◌, ◌≤◌, length, IfOk};
ghost use Rattle.pt_atoms.specs.Atoms.{IsModulus, IsNormal};

use crate::form::normal;
use crate::{
    Atom, AtomFault, Coefficients, Kind, NoMemory, Normal, NormalKind, atom_table, meets, residual,
};
use pt_tables::Table;
use std::alloc::Global;
use std::test::Fail;

// The kind, or modulo 1 where its modulus is out of range.
fn in_range(kind: Kind) -> Kind
    ensures { IsModulus result }
{
    match kind {
        Kind::Eq => Kind::Eq,
        Kind::Le => Kind::Le,
        Kind::Mod(m) => {
            if 1 <= m && m <= 0x7fff_ffff_ffff_ffff {
                Kind::Mod(m)
            } else {
                Kind::Mod(1)
            }
        }
    }
}

fn form_of(
    alloc: Global,
    kind: Kind,
    coefficients: &[i64],
    constant: i64,
) -> Result<Normal, NoMemory>
    requires { length coefficients.now ≤ 10 }
    ensures normal_form { IfOk result (λ n. IsNormal n) }
    ensures tracks { IfOk result (λ n. length n.coefficients ≡ length coefficients.now) }
{
    let items = Vec::from_slice(alloc, coefficients)?;
    let atom = Atom {
        kind: in_range(kind),
        coefficients: Coefficients::new(items),
        constant,
    };
    normal(alloc, &atom)
}

// The kind, the first coefficient and the constant.
fn shown(form: &Normal) -> (NormalKind, i64, i128) {
    let first = match form.coefficients.as_slice() {
        [a, ..] => *a,
        [] => 0,
    };
    (form.kind, first, form.constant)
}

const LEAST: i64 = -0x8000_0000_0000_0000;

const GREATEST: i64 = 0x7fff_ffff_ffff_ffff;

const WIDEST: u64 = 0x7fff_ffff_ffff_ffff;

#[test]
fn normal_forms_are_divided_and_reduced(rt: HostRuntime) -> Result<(), Fail> {
    let never = (NormalKind::Always(false), 0, 0);
    let always = (NormalKind::Always(true), 0, 0);
    for (kind, coefficient, constant, want) in [
        (Kind::Eq, 2, 7, never),
        (Kind::Eq, 2, -6, (NormalKind::Eq, 1, -3)),
        (Kind::Eq, 0, 0, always),
        (Kind::Eq, 0, 1, never),
        (Kind::Eq, LEAST, LEAST, (NormalKind::Eq, -1, -1)),
        (Kind::Le, 4, 7, (NormalKind::Le, 1, 1)),
        (Kind::Le, -4, -7, (NormalKind::Le, -1, -2)),
        (Kind::Le, 0, -1, never),
        (Kind::Le, 0, 0, always),
        (Kind::Le, LEAST, GREATEST, (NormalKind::Le, -1, 0)),
        (Kind::Mod(8), 6, 4, (NormalKind::Mod(4), 3, 2)),
        (Kind::Mod(3), 6, 4, never),
        (Kind::Mod(3), -6, 9, always),
        (Kind::Mod(1), 5, 3, always),
        (
            Kind::Mod(WIDEST),
            LEAST,
            GREATEST,
            (NormalKind::Mod(WIDEST), GREATEST - 1, 0),
        ),
    ] {
        let form = form_of(rt.alloc(), kind, &[coefficient], constant)?;
        assert!(rt; shown(&form) == want, "{kind:?} {coefficient} {constant}");
    }
    Ok(())
}

#[test]
fn residuals_and_signs(rt: HostRuntime) -> Result<(), Fail> {
    let never = (NormalKind::Always(false), 0, 0);
    let always = (NormalKind::Always(true), 0, 0);
    for (kind, constant, letter, want) in [
        (Kind::Eq, 5, 1, (NormalKind::Eq, 1, 2)),
        (Kind::Eq, 5, 0, never),
        (Kind::Le, 0, 1, (NormalKind::Le, 1, -1)),
        (Kind::Mod(3), 1, 0, (NormalKind::Mod(3), 1, 2)),
        (Kind::Mod(4), 3, 1, (NormalKind::Mod(2), 1, 1)),
        (Kind::Mod(4), 3, 0, never),
        (Kind::Mod(2), 1, 1, always),
        (Kind::Mod(1), 0, 1, always),
    ] {
        let form = form_of(rt.alloc(), kind, &[1], constant)?;
        let next = residual(rt.alloc(), &form, letter % 2)?;
        assert!(rt; shown(&next) == want, "{kind:?} {constant} {letter}");
    }
    let zero = form_of(rt.alloc(), Kind::Eq, &[1], 0)?;
    assert!(rt; meets(&zero, 0) && !meets(&zero, 1));
    let minus_one = form_of(rt.alloc(), Kind::Eq, &[1], -1)?;
    assert!(rt; !meets(&minus_one, 0) && meets(&minus_one, 1));
    Ok(())
}

#[test]
fn tables_stop_at_the_bound(rt: HostRuntime) -> Result<(), Fail> {
    for (kind, coefficients, constant, states) in [
        (Kind::Eq, [1, 0], 1000, 12),
        (Kind::Eq, [2, 0], 7, 1),
        (Kind::Mod(7), [1, 0], 0, 7),
        (Kind::Mod(8), [1, 0], 0, 5),
        (Kind::Le, [0, 0], 0, 1),
    ] {
        let form = form_of(rt.alloc(), kind, &coefficients, constant)?;
        let table = atom_table(rt.alloc(), &form, states)?;
        assert!(rt; table.states() == states, "{kind:?} {constant}");
        if 1 < states {
            let refused = atom_table(rt.alloc(), &form, states - 1).err();
            assert!(rt;
                refused == Some(AtomFault::States { bound: states - 1 }),
                "{kind:?} {constant}"
            );
        }
    }
    let thousand = form_of(rt.alloc(), Kind::Eq, &[1], 1000)?;
    assert!(rt; atom_table(rt.alloc(), &thousand, 12)?.states() == 12);
    let refused = atom_table(rt.alloc(), &thousand, 11).err();
    assert!(rt; refused == Some(AtomFault::States { bound: 11 }));
    let many = form_of(rt.alloc(), Kind::Le, &[40001, 40000], 0)?;
    let refused = atom_table(rt.alloc(), &many, 16384).err();
    assert!(rt; refused == Some(AtomFault::States { bound: 16384 }));
    Ok(())
}

// A word that leads to a state: the state has the vectors that are in the set with the word's digits in front.
#[derive(Clone, Copy)]
struct Word {
    scale: i128,
    numbers: [i128; 2],
}

impl Word {
    fn with(self, letter: u16) -> Word {
        let [x, y] = self.numbers;
        Word {
            scale: self.scale.wrapping_mul(2),
            numbers: [
                x.wrapping_add(self.scale.wrapping_mul(i128::from(letter % 2))),
                y.wrapping_add(self.scale.wrapping_mul(i128::from(letter / 2 % 2))),
            ],
        }
    }

    fn before(self, z: [i128; 2]) -> [i128; 2] {
        let [x, y] = self.numbers;
        [
            x.wrapping_add(self.scale.wrapping_mul(z[0])),
            y.wrapping_add(self.scale.wrapping_mul(z[1])),
        ]
    }
}

// Adds the word of the successor, where it has none yet. States are numbered in the order in which they are reached.
fn add_word(words: &mut Vec<Word>, table: &Table, state: u32, letter: u16) -> Result<(), NoMemory> {
    if table.states() <= state || table.letters() <= letter as usize {
        return Ok(());
    }
    let known = words.len();
    let Some(word) = words.get(state as usize) else {
        return Ok(());
    };
    let next = word.with(letter);
    if table.next(state, letter) as usize == known {
        words.push(next)?;
    }
    Ok(())
}

fn words_of(alloc: Global, table: &Table) -> Result<Vec<Word>, NoMemory> {
    let mut words = Vec::new(alloc);
    words.push(Word {
        scale: 1,
        numbers: [0, 0],
    })?;
    for state in 0..table.states() {
        for letter in 0u16..4 {
            add_word(&mut words, table, state, letter)?;
        }
    }
    Ok(words)
}

// Whether the atom holds of the vector, by plain arithmetic.
fn holds(kind: Kind, coefficients: [i64; 2], constant: i64, z: [i128; 2]) -> bool {
    let first = i128::from(coefficients[0]).wrapping_mul(z[0]);
    let second = i128::from(coefficients[1]).wrapping_mul(z[1]);
    let rest = first
        .wrapping_add(second)
        .wrapping_sub(i128::from(constant));
    match kind {
        Kind::Eq => rest == 0,
        Kind::Le => rest <= 0,
        Kind::Mod(m) => m != 0 && rest.rem_euclid(i128::from(m)) == 0,
    }
}

fn has_member(table: &Table, state: u32, z: [i128; 2]) -> bool {
    table.tracks() == 2 && state < table.states() && table.member(state, &z)
}

// How many of the vectors of components from -3 to 3 a state answers otherwise than plain arithmetic does.
fn wrong_answers(
    table: &Table,
    state: u32,
    word: Word,
    kind: Kind,
    coefficients: [i64; 2],
    constant: i64,
) -> usize {
    let mut wrong = 0usize;
    for i in 0u16..49 {
        let z = [i128::from(i / 7) - 3, i128::from(i % 7) - 3];
        if has_member(table, state, z) != holds(kind, coefficients, constant, word.before(z)) {
            wrong = wrong.saturating_add(1);
        }
    }
    wrong
}

fn wrong_answers_of_all(
    table: &Table,
    words: &[Word],
    kind: Kind,
    coefficients: [i64; 2],
    constant: i64,
) -> usize {
    let mut wrong = 0usize;
    let mut state = 0u32;
    for word in words {
        wrong = wrong.saturating_add(wrong_answers(
            table,
            state,
            *word,
            kind,
            coefficients,
            constant,
        ));
        state = state.saturating_add(1);
    }
    wrong
}

#[test]
fn states_have_the_members_of_plain_arithmetic(rt: HostRuntime) -> Result<(), Fail> {
    for (kind, coefficients, constant) in [
        (Kind::Eq, [1, 0], 5),
        (Kind::Eq, [2, -3], 7),
        (Kind::Eq, [6, -4], 8),
        (Kind::Eq, [6, -4], 7),
        (Kind::Eq, [1, 0], LEAST),
        (Kind::Eq, [LEAST, 0], LEAST),
        (Kind::Le, [3, -2], -7),
        (Kind::Le, [-4, 6], 5),
        (Kind::Le, [0, 0], -1),
        (Kind::Le, [1, -1], GREATEST),
        (Kind::Le, [-1, 0], LEAST),
        (Kind::Mod(3), [1, 1], 2),
        (Kind::Mod(5), [-2, 3], 4),
        (Kind::Mod(7), [LEAST, GREATEST], LEAST),
        (Kind::Mod(12), [5, -7], -3),
        (Kind::Mod(8), [6, 2], 4),
        (Kind::Mod(6), [3, 0], 3),
        (Kind::Mod(9), [3, 6], 4),
        (Kind::Mod(0x4000_0000_0000_0000), [1, 0], LEAST),
    ] {
        let form = form_of(rt.alloc(), kind, &coefficients, constant)?;
        let table = atom_table(rt.alloc(), &form, 1000)?;
        let words = words_of(rt.alloc(), &table)?;
        assert_eq!(rt; words.len(), table.states() as usize, "{kind:?} {constant}");
        let wrong = wrong_answers_of_all(&table, words.as_slice(), kind, coefficients, constant);
        assert_eq!(rt; wrong, 0, "{kind:?} {constant}");
    }
    Ok(())
}
