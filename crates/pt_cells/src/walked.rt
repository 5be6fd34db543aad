// What was seen of a cell.
ghost use Rattle.std.specs.Prelude.{◌≡◌, IfOk};
ghost use Rattle.once_cell.specs.Once.{cell_name};

use once_cell::race::{Note, OnceBox};
use pt_code::NoMemory;
use pt_shards::HashedCode;
use std::alloc::Global;
use std::marker::Model;

/// A note of a cell whose code was seen, which is the one that the cell ever shows. Contracts see the cell's name and the
/// code's numbers. A note takes no bytes, and an item of a vector has to have one.
#[derive(Drop)]
pub(crate) struct Walked {
    byte: u8,
    note: Note<HashedCode>,
}

impl Model for Walked {
    ghost use Rattle.std.specs.Prelude.{◌≡◌, ℕ, List, [], Some, unwrap_or};

    ghost Value = { ℕ × List ℕ };

    ghost view = { λ w. (w.note.cell, unwrap_or w.note.known []) };

    ghost invariant = { λ w. w.note.known ≡ Some (unwrap_or w.note.known []) };
}

impl Walked {
    /// Offers a code to a cell. Answers a note of the cell with the code that it shows, which is the one offered unless
    /// another was there.
    pub(crate) fn offer(
        alloc: Global,
        cell: &OnceBox<HashedCode>,
        code: &HashedCode,
    ) -> Result<(Walked, HashedCode), NoMemory>
        ensures cell { IfOk result (λ seen. seen.0.0 ≡ cell_name cell.now) }
        ensures code { IfOk result (λ seen. seen.0.1 ≡ seen.1) }
    {
        let mut note = cell.note();
        let shown = cell.get_or_try_init_as(
            move || -> Result<Box<HashedCode>, NoMemory> {
                Ok(Box::new(alloc, code.try_clone()?)?)
            },
            &mut note,
        )?;
        let shown = shown.try_clone()?;
        Ok((Walked { byte: 0, note }, shown))
    }

    /// Another note of the same.
    pub(crate) fn again(&mut self) -> Walked
        ensures same { self.new ≡ self.old }
        ensures result { result ≡ self.old }
    {
        Walked {
            byte: 0,
            note: self.note.again(),
        }
    }

    /// Two notes of one cell are of one code.
    pub(crate) fn compare(&mut self, other: &mut Walked)
        requires { other.old.0 ≡ self.old.0 }
        ensures same { (self.new ≡ self.old) × (other.new ≡ other.old) }
        ensures one { other.old ≡ self.old }
    {
        let theirs = other.note.again();
        self.note.compare(theirs);
    }
}
