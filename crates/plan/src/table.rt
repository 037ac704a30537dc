// A table with room for its most rows, so that a row is added without asking for memory.

ghost use Rattle.std.specs.Prelude.{◌≡◌, ◌<◌, List, [], ◌∷◌, ◌++◌, length, nat_le, slice_set, IfOk};
ghost use Rattle.std.specs.List.{slice_get};

use std::alloc::{AllocError, Global};
use std::marker::Model;

// Rows, numbered from 0: at most `MOST`.
#[derive(Drop)]
pub struct Table<T, const MOST: usize> {
    rows: Vec<T>,
}

impl<T, const MOST: usize> Model for Table<T, MOST> {
    ghost use Rattle.std.specs.Prelude.{◌≤◌, List, vec_capacity};

    ghost Value = { List T };

    ghost view = { λ t. t.rows.items };

    ghost invariant = { λ t. MOST ≤ vec_capacity t.rows };
}

impl<T, const MOST: usize> Table<T, MOST> {
    // No rows, with all the memory.
    pub fn reserved(heap: Global) -> Result<Table<T, MOST>, AllocError>
        ensures { IfOk result (λ t. t ≡ []) }
    {
        let rows = Vec::with_capacity(heap, MOST)?;
        Ok(Table { rows })
    }

    pub fn len(&self) -> usize
        ensures { result ≡ length self.now }
    {
        self.rows.len()
    }

    // Whether there is no room for another row.
    pub fn is_full(&self) -> bool
        ensures { result ≡ nat_le MOST (length self.now) }
    {
        self.len() >= MOST
    }

    pub fn as_slice(&self) -> &[T]
        ensures { result.now ≡ self.now }
    {
        self.rows.as_slice()
    }

    // A row more, where there is room.
    pub fn add(&mut self, row: T)
        requires { length self.old < MOST }
        ensures { self.new ≡ self.old ++ row ∷ [] }
    {
        self.rows.push_reserved(row);
    }
}

impl<T: Drop, const MOST: usize> Table<T, MOST> {
    // No rows; the room for them stays.
    pub fn clear(&mut self)
        ensures { self.new ≡ [] }
    {
        self.rows.clear();
    }
}

impl<T: Copy, const MOST: usize> Table<T, MOST> {
    // The row of this number, where there is one.
    pub fn get(&self, i: usize) -> Option<T>
        ensures { result ≡ slice_get self.now i }
    {
        self.as_slice().get(i).copied()
    }

    // Another row in the place of one.
    pub fn set(&mut self, i: usize, row: T)
        requires { i < length self.old }
        ensures { self.new ≡ slice_set self.old i row }
    {
        self.rows[i] = row;
    }
}
