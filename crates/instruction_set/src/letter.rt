// The letters of a program, and their table.
ghost use Rattle.std.specs.Prelude.{◌≡◌, ◌≢◌, ◌↔◌, ◌⊎◌, ◌<◌, ◌≤◌, Some, IsNone};
ghost use Rattle.std.specs.Hash as fed;
ghost use Rattle.std.specs.Cmp.Rules.{hashing};
ghost use Rattle.std.proofs.Common.{rules};
ghost use Rattle.instruction_set.specs.declared.letter.Letter.{Letter};
ghost use Rattle.instruction_set.specs.Letter.{index_of, byte_of, class_of, complement_of, name_of, letter_at, letter_of_byte, letter_named};

use std::hash::{Hash, Hasher};

/// What an instruction uses of the letters after it.
#[derive(Clone, Copy, Debug, PartialEq, Eq)]
pub enum Class {
    /// The instruction is a nop itself.
    Nop,
    /// It uses a register, the table's default unless a nop after it names another.
    Register,
    /// It uses a head, the table's default unless a nop after it names another.
    Head,
    /// It uses the list of nops after it.
    Template,
    /// It reads no operand.
    Plain,
}

/// An instruction, ordered by its index.
#[derive(Clone, Copy, Debug, Default, PartialEq, Eq, PartialOrd, Ord)]
pub enum Letter {
    #[default]
    NopA,
    NopB,
    NopC,
    IfNEqu,
    IfLess,
    IfLabel,
    MovHead,
    JmpHead,
    GetHead,
    SetFlow,
    ShiftR,
    ShiftL,
    Inc,
    Dec,
    Push,
    Pop,
    SwapStk,
    Swap,
    Add,
    Sub,
    Nand,
    HCopy,
    HAlloc,
    HDivide,
    Io,
    HSearch,
}

impl Letter {
    /// The row of the letter in the table, from 0.
    pub fn index(self) -> u8
        ensures index { result ≡ index_of self }
        ensures below { result < 26 }
    {
        self as u8
    }

    /// The byte that spells the letter, `a` to `z`.
    pub fn byte(self) -> u8
        ensures { result ≡ byte_of self }
    {
        FIRST_BYTE + self.index()
    }

    /// What the letter reads after it.
    pub fn class(self) -> Class
        ensures { result ≡ class_of self }
    {
        match self {
            Letter::NopA | Letter::NopB | Letter::NopC => Class::Nop,
            Letter::MovHead | Letter::JmpHead | Letter::GetHead => Class::Head,
            Letter::IfLabel | Letter::HSearch => Class::Template,
            Letter::SwapStk | Letter::HCopy | Letter::HAlloc | Letter::HDivide => Class::Plain,
            _ => Class::Register,
        }
    }

    /// The complement of a nop. None for every other letter.
    pub fn complement(self) -> Option<Letter>
        ensures complement { result ≡ complement_of self }
        ensures none { IsNone result ↔ (class_of self ≢ Class.Nop) }
    {
        match self {
            Letter::NopA => Some(Letter::NopB),
            Letter::NopB => Some(Letter::NopC),
            Letter::NopC => Some(Letter::NopA),
            _ => None,
        }
    }

    /// The name of the letter, as `h-copy`.
    pub fn name(self) -> &'static str
        ensures { result.now ≡ name_of self }
    {
        match self {
            Letter::NopA => "nop-A",
            Letter::NopB => "nop-B",
            Letter::NopC => "nop-C",
            Letter::IfNEqu => "if-n-equ",
            Letter::IfLess => "if-less",
            Letter::IfLabel => "if-label",
            Letter::MovHead => "mov-head",
            Letter::JmpHead => "jmp-head",
            Letter::GetHead => "get-head",
            Letter::SetFlow => "set-flow",
            Letter::ShiftR => "shift-r",
            Letter::ShiftL => "shift-l",
            Letter::Inc => "inc",
            Letter::Dec => "dec",
            Letter::Push => "push",
            Letter::Pop => "pop",
            Letter::SwapStk => "swap-stk",
            Letter::Swap => "swap",
            Letter::Add => "add",
            Letter::Sub => "sub",
            Letter::Nand => "nand",
            Letter::HCopy => "h-copy",
            Letter::HAlloc => "h-alloc",
            Letter::HDivide => "h-divide",
            Letter::Io => "IO",
            Letter::HSearch => "h-search",
        }
    }

    /// The letter of this row of the table, from 0.
    #[tactic(auto, unfolding(crate::specs::Letter::letter_at))]
    pub fn from_index(index: u8) -> Option<Letter>
        ensures letter { result ≡ letter_at index }
        ensures none { IsNone result ↔ (26 ≤ index) }
    {
        match index {
            0 => Some(Letter::NopA),
            1 => Some(Letter::NopB),
            2 => Some(Letter::NopC),
            3 => Some(Letter::IfNEqu),
            4 => Some(Letter::IfLess),
            5 => Some(Letter::IfLabel),
            6 => Some(Letter::MovHead),
            7 => Some(Letter::JmpHead),
            8 => Some(Letter::GetHead),
            9 => Some(Letter::SetFlow),
            10 => Some(Letter::ShiftR),
            11 => Some(Letter::ShiftL),
            12 => Some(Letter::Inc),
            13 => Some(Letter::Dec),
            14 => Some(Letter::Push),
            15 => Some(Letter::Pop),
            16 => Some(Letter::SwapStk),
            17 => Some(Letter::Swap),
            18 => Some(Letter::Add),
            19 => Some(Letter::Sub),
            20 => Some(Letter::Nand),
            21 => Some(Letter::HCopy),
            22 => Some(Letter::HAlloc),
            23 => Some(Letter::HDivide),
            24 => Some(Letter::Io),
            25 => Some(Letter::HSearch),
            _ => None,
        }
    }

    /// The letter that this byte spells.
    pub fn from_byte(byte: u8) -> Option<Letter>
        ensures letter { result ≡ letter_of_byte byte }
        ensures none { IsNone result ↔ (byte < 97 ⊎ 123 ≤ byte) }
    {
        Letter::from_index(byte.wrapping_sub(FIRST_BYTE))
    }

    /// The letter of this name. Capitals count.
    pub fn from_name(name: &[u8]) -> Option<Letter>
        ensures letter { result ≡ letter_named name.now }
        ensures none { IsNone result ↔ ((letter : Letter) → name_of letter ≢ name.now) }
    {
        find_named(name)
    }
}

#[tactic(auto, unfolding(crate::specs::Letter::letter_named))]
fn find_named(name: &[u8]) -> Option<Letter>
    ensures { result ≡ letter_named name.now }
{
    LETTERS
        .iter()
        .copied()
        .find(|letter| letter.name().as_bytes() == name)
}

impl Hash for Letter {
    ghost hash_input = { λ letter. fed.u8 (index_of letter) };

    ghost respects_eq = { Prim.search (hashing, rules) };

    fn hash<H: Hasher>(&self, state: &mut H) {
        self.index().hash(state);
    }
}

/// How many letters there are.
pub const LETTER_COUNT: u8 = 26;

/// The byte that spells the first letter.
pub const FIRST_BYTE: u8 = b'a';

/// Every letter, by its index.
static LETTERS: [Letter; LETTER_COUNT as usize] = [
    Letter::NopA,
    Letter::NopB,
    Letter::NopC,
    Letter::IfNEqu,
    Letter::IfLess,
    Letter::IfLabel,
    Letter::MovHead,
    Letter::JmpHead,
    Letter::GetHead,
    Letter::SetFlow,
    Letter::ShiftR,
    Letter::ShiftL,
    Letter::Inc,
    Letter::Dec,
    Letter::Push,
    Letter::Pop,
    Letter::SwapStk,
    Letter::Swap,
    Letter::Add,
    Letter::Sub,
    Letter::Nand,
    Letter::HCopy,
    Letter::HAlloc,
    Letter::HDivide,
    Letter::Io,
    Letter::HSearch,
];
