// The nine tasks, and the word that each computes.
ghost use Rattle.std.specs.Prelude.{◌≡◌, ◌<◌, ℕ};
ghost use Rattle.logic_tasks.specs.LogicTasks.{has_bit, task_place, task_name, output_bit};

/// How many tasks there are.
pub const TASK_COUNT: usize = 9;

/// A logic task, in the order of the table.
#[derive(Clone, Copy, Debug, PartialEq, Eq)]
pub enum Task {
    Not,
    Nand,
    And,
    Orn,
    Or,
    Andn,
    Nor,
    Xor,
    Equ,
}

/// Every task, in the order of the table.
pub const TASKS: [Task; TASK_COUNT] = [
    Task::Not,
    Task::Nand,
    Task::And,
    Task::Orn,
    Task::Or,
    Task::Andn,
    Task::Nor,
    Task::Xor,
    Task::Equ,
];

impl Task {
    /// The place in the table, from 0.
    pub fn place(self) -> usize
        ensures { result ≡ task_place self }
    {
        self as usize
    }

    /// The name, as a trace prints it.
    pub fn name(self) -> &'static str
        ensures { result.now ≡ task_name self }
    {
        match self {
            Task::Not => "NOT",
            Task::Nand => "NAND",
            Task::And => "AND",
            Task::Orn => "ORN",
            Task::Or => "OR",
            Task::Andn => "ANDN",
            Task::Nor => "NOR",
            Task::Xor => "XOR",
            Task::Equ => "EQU",
        }
    }

    /// What the task makes of two inputs; NOT looks at the first alone.
    pub(crate) fn word(self, x: u32, y: u32) -> u32
        ensures { (k : ℕ) → k < 32
            → has_bit result k ≡ output_bit self (has_bit x k) (has_bit y k) }
    {
        match self {
            Task::Not => !x,
            Task::Nand => !(x & y),
            Task::And => x & y,
            Task::Orn => x | !y,
            Task::Or => x | y,
            Task::Andn => x & !y,
            Task::Nor => !(x | y),
            Task::Xor => x ^ y,
            Task::Equ => !(x ^ y),
        }
    }
}
