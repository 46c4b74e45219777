ghost use Rattle.std.specs.Prelude.{◌≡◌, ℤ, pos, List, replicate};
ghost use Rattle.virtual_cpu.specs.Parts.{pushed, popped, top_of};

use std::marker::Model;

/// Ten numbers, the top first.
#[derive(Drop)]
pub struct Stack {
    numbers: [i32; 10],
}

impl Model for Stack {
    ghost Value = { List ℤ };

    ghost view = { λ s. s.numbers };
}

impl Stack {
    pub(crate) fn new() -> Stack
        ensures { result ≡ replicate 10 (pos 0) }
    {
        Stack { numbers: [0; 10] }
    }

    /// The stack of these numbers, the top first.
    pub(crate) fn of(numbers: [i32; 10]) -> Stack
        ensures { result ≡ numbers }
    {
        Stack { numbers }
    }

    /// Its numbers, the top first.
    pub(crate) fn numbers(&self) -> [i32; 10]
        ensures { result ≡ self.now }
    {
        self.numbers
    }

    pub(crate) fn push(&mut self, number: i32)
        ensures { self.new ≡ pushed number self.old }
    {
        self.numbers.copy_within(0..9, 1);
        self.numbers[0] = number;
    }

    pub(crate) fn pop(&mut self) -> i32
        ensures top { result ≡ top_of self.old }
        ensures rest { self.new ≡ popped self.old }
    {
        let top = self.numbers[0];
        self.numbers.copy_within(1..10, 0);
        self.numbers[9] = 0;
        top
    }
}
