//! The operand stack, whose room is made before a run.
ghost use Rattle.std.specs.Prelude.{◌≡◌, ◌<◌, ◌≤◌, ◌-◌, [], ◌∷◌, drop, get_or, length, pos, reverse, set, take, IfOk};

use std::alloc::{AllocError, Global};
use std::marker::Model;
use std::mem;

/// Numbers, the newest first, and for how many there is room.
#[derive(Drop)]
pub struct Stack {
    cells: Vec<i64>,
    /// How many of the cells are taken.
    top: usize,
}

impl Model for Stack {
    ghost use Rattle.std.specs.Prelude.{ℕ, ℤ, ◌≤◌, length, reverse, take, List};

    ghost Value = { List ℤ × ℕ };

    ghost view = { λ stack.
        (reverse (take stack.top stack.cells.items), length stack.cells.items) };

    ghost invariant = { λ stack. stack.top ≤ length stack.cells.items };
}

impl Stack {
    /// An empty stack with so much room.
    pub fn with_room(alloc: Global, room: usize) -> Result<Stack, AllocError>
        ensures { IfOk result (λ stack. stack ≡ ([], room)) }
    {
        let mut cells = Vec::new(alloc);
        cells.resize(room, 0)?;
        Ok(Stack { cells, top: 0 })
    }

    /// The stack, in whose place one without room stays.
    #[inline(always)]
    pub fn take(&mut self) -> Stack
        ensures taken { result ≡ self.old }
        ensures left { self.new ≡ ([], 0) }
    {
        let alloc = *self.cells.allocator();
        mem::replace(
            self,
            Stack {
                cells: Vec::new(alloc),
                top: 0,
            },
        )
    }

    /// There is room for all numbers on it.
    #[inline(always)]
    pub fn fits(&self)
        ensures { length self.now.0 ≤ self.now.1 }
    {
        let _ = &self.cells;
    }

    /// Takes all numbers away.
    pub fn clear(&mut self)
        ensures cells { self.new.0 ≡ [] }
        ensures room { self.new.1 ≡ self.old.1 }
    {
        self.top = 0;
    }

    /// Puts a number on top.
    #[inline(always)]
    pub fn push(&mut self, number: i64)
        requires { length self.old.0 < self.old.1 }
        ensures cells { self.new.0 ≡ number ∷ self.old.0 }
        ensures room { self.new.1 ≡ self.old.1 }
    {
        self.cells[self.top] = number;
        self.top += 1;
    }

    /// Takes the newest number.
    #[inline(always)]
    pub fn pop(&mut self) -> i64
        requires { 0 < length self.old.0 }
        ensures cells { self.old.0 ≡ result ∷ self.new.0 }
        ensures spare { length self.new.0 < self.new.1 }
        ensures room { self.new.1 ≡ self.old.1 }
    {
        self.top -= 1;
        self.cells[self.top]
    }

    /// The newest numbers, so many. The newest of all is the last.
    pub fn newest(&self, count: usize) -> &[i64]
        requires { count ≤ length self.now.0 }
        ensures { result.now ≡ reverse (take count self.now.0) }
    {
        &self.cells[self.top - count..self.top]
    }

    /// The number that stands so far below the newest.
    #[inline]
    pub fn pick(&self, distance: usize) -> i64
        requires { distance < length self.now.0 }
        ensures { result ≡ get_or self.now.0 distance (pos 0) }
    {
        self.cells[self.top - 1 - distance]
    }

    /// Puts a number in the place of the one that stands so far below the newest.
    #[inline]
    pub fn put(&mut self, distance: usize, number: i64)
        requires { distance < length self.old.0 }
        ensures cells { self.new.0 ≡ set self.old.0 distance number }
        ensures room { self.new.1 ≡ self.old.1 }
    {
        let place = self.top - 1 - distance;
        self.cells[place] = number;
    }

    /// Leaves so many numbers, the oldest ones.
    pub fn cut(&mut self, count: usize)
        requires { count ≤ length self.old.0 }
        ensures cells { self.new.0 ≡ drop (length self.old.0 - count) self.old.0 }
        ensures room { self.new.1 ≡ self.old.1 }
    {
        self.top = count;
    }

    /// Takes so many numbers away, or all where there are fewer.
    pub fn lower(&mut self, count: usize)
        ensures cells { self.new.0 ≡ drop count self.old.0 }
        ensures room { self.new.1 ≡ self.old.1 }
    {
        self.top = self.top.saturating_sub(count);
    }
}
