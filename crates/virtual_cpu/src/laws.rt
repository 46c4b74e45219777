// What each step leaves, and what each letter takes.
ghost use Rattle.std.specs.Prelude.{◌≡◌, ◌≢◌, ℕ, ℤ, ◌*◌, ◌≤◌, Option, List, length, FitsSigned};
ghost use Rattle.virtual_cpu.specs.Prelude.{w32, Letter, HDivide, Io, class_of, default_of};
ghost use Rattle.virtual_cpu.specs.Effects.{effect_of};
ghost use Rattle.virtual_cpu.specs.View.{image_of, machine_of_image, HoldsWords};
ghost use Rattle.virtual_cpu.specs.Machine.{Machine, IsMachine, fresh_machine};
ghost use Rattle.virtual_cpu.specs.OperandUse.{TakesOperand};
ghost use Rattle.virtual_cpu.specs.Step.{step, AsksOf, KeepsLimits, TellsNothing};

/// A step leaves a machine, for the same length of genome and under the same limit; a question that
/// it tells is of that machine.
pub fn steps_leave_machines()
    ensures machine { (m : Machine) (input : ℤ) (copy : Option Letter)
        → IsMachine m → IsMachine (step m input copy).0 }
    ensures question { (m : Machine) (input : ℤ) (copy : Option Letter)
        → AsksOf (step m input copy).0 (step m input copy).1 }
    ensures kept { (m : Machine) (input : ℤ) (copy : Option Letter)
        → KeepsLimits m (step m input copy).0 }
{}

/// A text that is not too long for its genome and its limit starts a machine.
pub fn texts_start_machines()
    ensures { (text : List Letter) (birth_length limit : ℕ)
        → 8 ≤ length text
        → length text ≤ limit
        → length text ≤ 2 * birth_length
        → birth_length ≤ limit
        → limit ≤ 8192
        → IsMachine (fresh_machine text birth_length limit) }
{}

/// A machine is the machine of its image.
pub fn images_are_whole()
    ensures { (m : Machine) → IsMachine m
        → machine_of_image (image_of m) m.birth_length m.limit ≡ m }
{}

/// The registers and the stacks hold numbers of 32 bits at the start and after each step that takes
/// such an input.
pub fn machines_hold_words()
    ensures start { (text : List Letter) (birth_length limit : ℕ)
        → HoldsWords (fresh_machine text birth_length limit) }
    ensures step { (m : Machine) (input : ℤ) (copy : Option Letter)
        → IsMachine m
        → HoldsWords m
        → FitsSigned w32 input
        → HoldsWords (step m input copy).0 }
{}

/// The letters of the classes Register and Head use the modifier, with the default of their row,
/// those of the class Template use the template, and no other letter uses either.
pub fn letters_take_their_operands()
    ensures { (letter : Letter) → TakesOperand (default_of letter) (class_of letter) letter }
{}

/// No letter but IO and h-divide tells what the life goes on with.
pub fn few_letters_tell()
    ensures { (letter : Letter) (m : Machine) (input : ℤ) (copy : Option Letter)
        → letter ≢ Io
        → letter ≢ HDivide
        → TellsNothing (effect_of letter m input copy).1 }
{}

/// No letter but IO takes an input.
pub fn only_io_takes_an_input()
    ensures { (letter : Letter) (m : Machine) (input other : ℤ) (copy : Option Letter)
        → letter ≢ Io
        → effect_of letter m input copy ≡ effect_of letter m other copy }
{}
