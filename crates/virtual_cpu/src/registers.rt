ghost use Rattle.std.specs.Prelude.{◌≡◌};
ghost use Rattle.virtual_cpu.specs.View.{registers_of};
ghost use Rattle.virtual_cpu.specs.Parts.{register_after, value_of, with_register};

/// One of the three registers.
#[derive(Clone, Copy)]
pub enum Register {
    Ax,
    Bx,
    Cx,
}

impl Register {
    #[inline(always)]
    pub(crate) fn next(self) -> Register
        ensures { result ≡ register_after self }
    {
        match self {
            Register::Ax => Register::Bx,
            Register::Bx => Register::Cx,
            Register::Cx => Register::Ax,
        }
    }
}

/// The numbers in the three registers.
#[derive(Clone, Copy, Default)]
pub struct Registers {
    pub ax: i32,
    pub bx: i32,
    pub cx: i32,
}

impl Registers {
    /// The registers that hold these, in their order.
    pub(crate) fn of(numbers: [i32; 3]) -> Registers
        ensures { result ≡ registers_of numbers }
    {
        let [ax, bx, cx] = numbers;
        Registers { ax, bx, cx }
    }

    #[inline(always)]
    pub(crate) fn get(&self, register: Register) -> i32
        ensures { result ≡ value_of self.now register }
    {
        match register {
            Register::Ax => self.ax,
            Register::Bx => self.bx,
            Register::Cx => self.cx,
        }
    }

    #[inline(always)]
    pub(crate) fn set(&mut self, register: Register, value: i32)
        ensures { self.new ≡ with_register self.old register value }
    {
        match register {
            Register::Ax => self.ax = value,
            Register::Bx => self.bx = value,
            Register::Cx => self.cx = value,
        }
    }
}
