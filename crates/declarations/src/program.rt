// An accepted table, with the line of its first statement and its extents.
ghost use Rattle.std.specs.Prelude.{◌≡◌, ◌<◌, ◌≤◌, List, ℤ};
ghost use Rattle.table.specs.Header.{locks, handles, routines, statements, statement_line};
ghost use Rattle.table.specs.Table.{table_of};
ghost use Rattle.table.specs.Accepted.{Accepted};
ghost use Rattle.declarations.specs.Laid.{Laid, Measured};

use crate::outline::Extents;
use std::marker::Model;

// In a contract, the table's numbers.
#[derive(Drop)]
pub struct Program<'a> {
    pub numbers: &'a [i32],
    pub base: usize,
    pub extents: &'a Extents,
}

impl<'a> Model for Program<'a> {
    ghost Value = { List ℤ };

    ghost view = { λ p. p.numbers.now };

    ghost invariant = { λ p. Laid p.numbers.now p.base p.extents.now };
}

impl<'a> Program<'a> {
    // Of an accepted table's numbers and its extents.
    pub fn new(numbers: &'a [i32], extents: &'a Extents) -> Program<'a>
        requires measured { Measured numbers.now extents.now }
        requires accepted { Accepted (table_of numbers.now) }
        ensures { result ≡ numbers.now }
    {
        Program {
            numbers,
            base: table::first_line(numbers),
            extents,
        }
    }

    // How many statements it has. (`accepted`, here and in promises of crates above, is how a caller learns what the type says.)
    pub fn statements(&self) -> usize
        ensures accepted { Accepted (table_of self.now) }
        ensures is { result ≡ statements self.now }
        ensures some { 1 ≤ result }
        ensures few { result ≤ 512 }
    {
        table::field_of(self.numbers, 0, 5)
    }

    // How many routines it has.
    pub fn routines(&self) -> usize
        ensures is { result ≡ routines self.now }
        ensures few { result ≤ 32 }
    {
        table::field_of(self.numbers, 0, 4)
    }

    // How many handles it has.
    pub fn handles(&self) -> usize
        ensures is { result ≡ handles self.now }
        ensures few { result ≤ 128 }
    {
        table::field_of(self.numbers, 0, 3)
    }

    // How many locks it has.
    pub fn locks(&self) -> usize
        ensures { result ≡ locks self.now }
    {
        table::field_of(self.numbers, 0, 2)
    }

    // The line of statement `s`.
    pub fn line_of(&self, s: usize) -> usize
        requires { s < statements self.now }
        ensures { result ≡ statement_line self.now s }
    {
        self.base + s
    }
}
