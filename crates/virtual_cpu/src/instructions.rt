// The instructions: one method a letter, and the step that picks it.
ghost use Rattle.std.specs.Prelude.{◌≡◌, ◌<◌, ◌≤◌, length};
ghost use Rattle.virtual_cpu.specs.Replication.{can_allocate, after_h_copy, divide_question};
ghost use Rattle.virtual_cpu.specs.Effects.{telling, going_on, moving, allocating_if, effect_of};
ghost use Rattle.virtual_cpu.specs.Machine.{letter_under_ip, with_ip_advanced, with_ip_marked};
ghost use Rattle.virtual_cpu.specs.HeadEffects.{head, after_mov_head, after_jmp_head, after_get_head, after_if_label, after_h_search, with_search};
ghost use Rattle.virtual_cpu.specs.RegisterEffects.{after_if_n_equ, after_if_less, after_set_flow, after_shift_r, after_shift_l, after_inc, after_dec, after_push, after_pop, after_swap_stk, after_swap, after_add, after_sub, after_nand, after_io, output_of};
ghost use Rattle.virtual_cpu.specs.Step.{step, AsksOf, KeepsLimits};
ghost use Rattle.virtual_cpu.specs.declared.step_answer.StepAnswer.TheVariants.{Copied, Output, Asks};

use crate::cpu::Cpu;
use crate::heads::Head;
use crate::registers::Register;
use crate::step_answer::StepAnswer;
use instruction_set::Letter;

impl Cpu {
    fn go_on(&mut self) -> StepAnswer
        ensures { (self.new, result) ≡ going_on self.old }
    {
        self.advance();
        StepAnswer::Plain
    }

    #[tactic(auto, unfolding(crate::specs::RegisterEffects::after_if_n_equ))]
    fn if_n_equ(&mut self) -> StepAnswer
        ensures { (self.new, result) ≡ going_on (after_if_n_equ self.old) }
    {
        let register = self.pick_register(Register::Bx);
        if self.register(register) == self.register(register.next()) {
            self.advance();
        }
        self.go_on()
    }

    #[tactic(auto, unfolding(crate::specs::RegisterEffects::after_if_less))]
    fn if_less(&mut self) -> StepAnswer
        ensures { (self.new, result) ≡ going_on (after_if_less self.old) }
    {
        let register = self.pick_register(Register::Bx);
        if self.register(register) >= self.register(register.next()) {
            self.advance();
        }
        self.go_on()
    }

    #[inline(never)]
    #[tactic(auto, unfolding(crate::specs::HeadEffects::after_if_label))]
    fn if_label(&mut self)
        ensures { self.new ≡ with_ip_advanced (after_if_label self.old) }
    {
        let complement = self.read_complement();
        if !self.nops_are(&complement) {
            self.advance();
        }
        self.advance();
    }

    #[tactic(auto, unfolding(crate::specs::HeadEffects::after_mov_head))]
    fn mov_head(&mut self) -> StepAnswer
        ensures { (self.new, result) ≡ moving (head self.old) (after_mov_head self.old) }
    {
        let head = self.pick_head(Head::Ip);
        self.move_head_to_flow(head);
        match head {
            Head::Ip => StepAnswer::Plain,
            _ => self.go_on(),
        }
    }

    #[tactic(auto, unfolding(crate::specs::HeadEffects::after_jmp_head))]
    fn jmp_head(&mut self) -> StepAnswer
        ensures { (self.new, result) ≡ going_on (after_jmp_head self.old) }
    {
        let head = self.pick_head(Head::Ip);
        let number = self.head(head) as i64 + self.register(Register::Cx) as i64;
        self.move_head(head, number);
        self.go_on()
    }

    #[tactic(auto, unfolding(crate::specs::HeadEffects::after_get_head))]
    fn get_head(&mut self) -> StepAnswer
        ensures { (self.new, result) ≡ going_on (after_get_head self.old) }
    {
        let head = self.pick_head(Head::Ip);
        let place = self.head(head) as i32;
        self.set_register(Register::Cx, place);
        self.go_on()
    }

    #[tactic(auto, unfolding(crate::specs::RegisterEffects::after_set_flow))]
    fn set_flow(&mut self) -> StepAnswer
        ensures { (self.new, result) ≡ going_on (after_set_flow self.old) }
    {
        let register = self.pick_register(Register::Cx);
        let number = self.register(register) as i64;
        self.move_flow(number);
        self.go_on()
    }

    #[tactic(auto, unfolding(crate::specs::RegisterEffects::after_shift_r))]
    fn shift_r(&mut self) -> StepAnswer
        ensures { (self.new, result) ≡ going_on (after_shift_r self.old) }
    {
        let register = self.pick_register(Register::Bx);
        let value = self.register(register);
        self.set_register(register, value >> 1);
        self.go_on()
    }

    #[tactic(auto, unfolding(crate::specs::RegisterEffects::after_shift_l))]
    fn shift_l(&mut self) -> StepAnswer
        ensures { (self.new, result) ≡ going_on (after_shift_l self.old) }
    {
        let register = self.pick_register(Register::Bx);
        let value = self.register(register);
        self.set_register(register, value << 1);
        self.go_on()
    }

    #[tactic(auto, unfolding(crate::specs::RegisterEffects::after_inc))]
    fn inc(&mut self) -> StepAnswer
        ensures { (self.new, result) ≡ going_on (after_inc self.old) }
    {
        let register = self.pick_register(Register::Bx);
        let value = self.register(register);
        self.set_register(register, value.wrapping_add(1));
        self.go_on()
    }

    #[tactic(auto, unfolding(crate::specs::RegisterEffects::after_dec))]
    fn dec(&mut self) -> StepAnswer
        ensures { (self.new, result) ≡ going_on (after_dec self.old) }
    {
        let register = self.pick_register(Register::Bx);
        let value = self.register(register);
        self.set_register(register, value.wrapping_sub(1));
        self.go_on()
    }

    #[tactic(auto, unfolding(crate::specs::RegisterEffects::after_push))]
    fn push(&mut self) -> StepAnswer
        ensures { (self.new, result) ≡ going_on (after_push self.old) }
    {
        let register = self.pick_register(Register::Bx);
        let value = self.register(register);
        self.push_number(value);
        self.go_on()
    }

    #[tactic(auto, unfolding(crate::specs::RegisterEffects::after_pop))]
    fn pop(&mut self) -> StepAnswer
        ensures { (self.new, result) ≡ going_on (after_pop self.old) }
    {
        let register = self.pick_register(Register::Bx);
        let value = self.pop_number();
        self.set_register(register, value);
        self.go_on()
    }

    #[tactic(auto, unfolding(crate::specs::RegisterEffects::after_swap_stk))]
    fn swap_stk(&mut self) -> StepAnswer
        ensures { (self.new, result) ≡ going_on (after_swap_stk self.old) }
    {
        self.swap_stacks();
        self.go_on()
    }

    #[tactic(auto, unfolding(crate::specs::RegisterEffects::after_swap))]
    fn swap(&mut self) -> StepAnswer
        ensures { (self.new, result) ≡ going_on (after_swap self.old) }
    {
        let register = self.pick_register(Register::Bx);
        let next = register.next();
        let value = self.register(register);
        let next_value = self.register(next);
        self.set_register(register, next_value);
        self.set_register(next, value);
        self.go_on()
    }

    #[tactic(auto, unfolding(crate::specs::RegisterEffects::after_add))]
    fn add(&mut self) -> StepAnswer
        ensures { (self.new, result) ≡ going_on (after_add self.old) }
    {
        let register = self.pick_register(Register::Bx);
        let sum = self
            .register(Register::Bx)
            .wrapping_add(self.register(Register::Cx));
        self.set_register(register, sum);
        self.go_on()
    }

    #[tactic(auto, unfolding(crate::specs::RegisterEffects::after_sub))]
    fn sub(&mut self) -> StepAnswer
        ensures { (self.new, result) ≡ going_on (after_sub self.old) }
    {
        let register = self.pick_register(Register::Bx);
        let difference = self
            .register(Register::Bx)
            .wrapping_sub(self.register(Register::Cx));
        self.set_register(register, difference);
        self.go_on()
    }

    #[tactic(auto, unfolding(crate::specs::RegisterEffects::after_nand))]
    fn nand(&mut self) -> StepAnswer
        ensures { (self.new, result) ≡ going_on (after_nand self.old) }
    {
        let register = self.pick_register(Register::Bx);
        let both = self.register(Register::Bx) & self.register(Register::Cx);
        self.set_register(register, !both);
        self.go_on()
    }

    fn h_copy(&mut self, copy: Option<Letter>) -> StepAnswer
        ensures { (self.new, result) ≡ telling Copied (after_h_copy self.old copy) }
    {
        self.copy_letter(copy);
        self.advance();
        StepAnswer::Copied
    }

    fn h_alloc(&mut self) -> StepAnswer
        ensures { (self.new, result) ≡ allocating_if (can_allocate self.old) self.old }
    {
        if !self.can_allocate() {
            return self.go_on();
        }
        self.allocate();
        self.advance();
        StepAnswer::Allocated
    }

    #[tactic(auto, unfolding(crate::specs::Replication::divide_question))]
    fn h_divide(&mut self) -> StepAnswer
        ensures told { (self.new, result) ≡ telling (Asks (divide_question self.old)) self.old }
        ensures question { AsksOf self.new result }
    {
        let ask = self.question();
        self.advance();
        StepAnswer::Asks(ask)
    }

    /// Puts the register out, and takes the input into it.
    #[tactic(auto, unfolding(crate::specs::RegisterEffects::after_io, crate::specs::RegisterEffects::output_of))]
    fn io(&mut self, input: i32) -> StepAnswer
        ensures { (self.new, result)
            ≡ telling (Output (output_of self.old)) (after_io self.old input) }
    {
        let register = self.pick_register(Register::Bx);
        let value = self.register(register);
        self.set_register(register, input);
        self.advance();
        StepAnswer::Output { value }
    }

    #[inline(never)]
    #[tactic(auto, unfolding(crate::specs::HeadEffects::after_h_search))]
    fn h_search(&mut self)
        ensures { self.new ≡ with_ip_advanced (after_h_search self.old) }
    {
        let complement = self.read_complement();
        let count = complement.len();
        if count == 0 {
            let next = self.place_after_ip();
            return self.end_search(next, 0, 0);
        }
        let length = self.memory_length();
        match self.find(&complement) {
            Some(place) => {
                let distance = (place + count - 1) as i32 - self.head(Head::Ip) as i32;
                self.end_search(((place + count) % length) as u32, distance, count)
            }
            None => {
                let next = self.place_after_ip();
                self.end_search(next, 0, count)
            }
        }
    }

    fn end_search(&mut self, flow: u32, bx: i32, cx: usize)
        requires within { flow < length self.old.memory }
        requires few { cx ≤ 10 }
        ensures { self.new ≡ with_ip_advanced (with_search self.old flow bx cx) }
    {
        self.move_flow_to(flow);
        self.set_register(Register::Bx, bx);
        self.set_register(Register::Cx, cx as i32);
        self.advance();
    }

    /// One instruction. `input` is taken only by IO, `copy` only by h-copy.
    #[tactic(auto, unfolding(crate::specs::Step::step))]
    pub fn step(&mut self, input: i32, copy: Option<Letter>) -> StepAnswer
        ensures step { (self.new, result) ≡ step self.old input copy }
        ensures question { AsksOf self.new result }
        ensures kept { KeepsLimits self.old self.new }
    {
        let letter = self.take();
        self.perform(letter, input, copy)
    }

    /// The first half of a step: the place of IP is marked, and the letter there is given.
    #[inline(always)]
    pub fn take(&mut self) -> Letter
        ensures letter { result ≡ letter_under_ip self.old }
        ensures marked { self.new ≡ with_ip_marked self.old }
    {
        let letter = self.next();
        self.mark_executed();
        letter
    }

    /// The second half: the letter that was taken has its effect.
    #[inline(always)]
    pub fn perform(&mut self, letter: Letter, input: i32, copy: Option<Letter>) -> StepAnswer
        ensures effect { (self.new, result) ≡ effect_of letter self.old input copy }
        ensures question { AsksOf self.new result }
        ensures kept { KeepsLimits self.old self.new }
    {
        self.act(letter, input, copy)
    }

    #[inline(always)]
    fn act(&mut self, letter: Letter, input: i32, copy: Option<Letter>) -> StepAnswer
        ensures effect { (self.new, result) ≡ effect_of letter self.old input copy }
        ensures question { AsksOf self.new result }
    {
        match letter {
            Letter::NopA => self.go_on(),
            Letter::NopB => self.go_on(),
            Letter::NopC => self.go_on(),
            Letter::IfNEqu => self.if_n_equ(),
            Letter::IfLess => self.if_less(),
            Letter::IfLabel => {
                self.if_label();
                StepAnswer::Plain
            }
            Letter::MovHead => self.mov_head(),
            Letter::JmpHead => self.jmp_head(),
            Letter::GetHead => self.get_head(),
            Letter::SetFlow => self.set_flow(),
            Letter::ShiftR => self.shift_r(),
            Letter::ShiftL => self.shift_l(),
            Letter::Inc => self.inc(),
            Letter::Dec => self.dec(),
            Letter::Push => self.push(),
            Letter::Pop => self.pop(),
            Letter::SwapStk => self.swap_stk(),
            Letter::Swap => self.swap(),
            Letter::Add => self.add(),
            Letter::Sub => self.sub(),
            Letter::Nand => self.nand(),
            Letter::HCopy => self.h_copy(copy),
            Letter::HAlloc => self.h_alloc(),
            Letter::HDivide => self.h_divide(),
            Letter::Io => self.io(input),
            Letter::HSearch => {
                self.h_search();
                StepAnswer::Plain
            }
        }
    }
}
