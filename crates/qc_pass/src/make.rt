//! A word without entries is made, with its right and its passes.

ghost use Rattle.std.specs.Prelude.{◌≡◌, ◌<◌, ◌≤◌, ◌+◌, ◌++◌, ◌∷◌, [], IfOk, OnOk, length, vec_len};
ghost use Rattle.qc_pass.specs.Made.{AreNew, IsFirst, IsNew, IsSetUp};
ghost use Rattle.qc_pass.specs.Tokens.{all, ends, right_table, rooms, table_of};

use crate::steps::SplitPass;
use crate::token::{Made, Pass, Passes, Right};
use atomic_table::Table;
use qc_list::OutOfMemory;
use std::alloc::Global;

impl<E> Passes<E> {
    /// A history without entries, and a pass for each of so many actors, with no
    /// room yet.
    pub fn make(alloc: Global, actors: u8) -> Result<Made<E>, OutOfMemory>
        requires { (1 ≤ actors) × (actors ≤ 64) }
        ensures right { IfOk result (λ m. IsFirst (table_of m.passes) actors m.right) }
        ensures each { IfOk result (λ m. (vec_len m.each ≡ actors) × AreNew (table_of m.passes) m.each.items) }
    {
        let (passes, right) = Self::word(alloc)?;
        let (right, each) = passes.fill(alloc, right, actors)?;
        Ok(Made {
            passes,
            right,
            each,
        })
    }

    // The word, with the right as its first seat.
    fn word(alloc: Global) -> Result<(Passes<E>, Right<E>), OutOfMemory>
        ensures { IfOk result (λ m. IsFirst (table_of m.0) 0 m.1) }
    {
        let (table, seat) = Table::of_words(alloc, &[0], &())?;
        Ok((Passes { table }, Right { seat }))
    }

    // The passes of this many actors, in the order of their numbers.
    fn fill(
        &self,
        alloc: Global,
        mut right: Right<E>,
        actors: u8,
    ) -> Result<(Right<E>, Vec<Pass<E>>), OutOfMemory>
        requires few { actors ≤ 64 }
        requires first { IsFirst (table_of self.now) 0 right }
        ensures { IfOk result (λ m. (vec_len m.1 ≡ actors) × IsSetUp (table_of self.now) m.0 m.1.items) }
    {
        let mut each = Vec::with_capacity(alloc, usize::from(actors))?;
        while each.len() < usize::from(actors) {
            self.add_pass(&mut right, &mut each)?;
        }
        Ok((right, each))
    }

    fn add_pass(&self, right: &mut Right<E>, each: &mut Vec<Pass<E>>) -> Result<(), OutOfMemory>
        requires few { vec_len each.old < 64 }
        requires set_up { IsSetUp (table_of self.now) right.old each.old.items }
        ensures set_up { OnOk result (IsSetUp (table_of self.now) right.new each.new.items) }
        ensures longer { OnOk result (vec_len each.new ≡ vec_len each.old + 1) }
    {
        let pass = self.split_pass(right, each.len() as u8);
        each.push(pass)?;
        Ok(())
    }

    // The right makes the pass with the next number.
    fn split_pass(&self, right: &mut Right<E>, number: u8) -> Pass<E>
        requires next { number ≡ length (rooms right.old) }
        requires table { right_table right.old ≡ table_of self.now }
        ensures pass { IsNew (table_of self.now) (length (rooms right.old)) result }
        ensures right { (right_table right.new ≡ right_table right.old) × (all right.new ≡ all right.old)
            × (rooms right.new ≡ rooms right.old ++ 0 ∷ []) × (ends right.new ≡ ends right.old ++ 0 ∷ []) }
    {
        let seat = self.table.shared.split_seat::<SplitPass>(&mut right.seat);
        Pass {
            number,
            room: 0,
            seat,
        }
    }
}
