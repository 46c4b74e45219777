// The operands of instructions: a modifier picks a register or a head, and a template says what to
// look for.
ghost use Rattle.std.specs.Prelude.{◌≡◌, ◌+◌, ◌<◌, ◌≤◌, IfSome, length};
ghost use Rattle.virtual_cpu.specs.Prelude.{same_letters, first_match, complements_of};
ghost use Rattle.virtual_cpu.specs.Machine.{letter_in_memory, place_after};
ghost use Rattle.virtual_cpu.specs.Operands.{on_modifier, register_picked, head_picked, template_of, on_template};

use crate::cpu::Cpu;
use crate::heads::Head;
use crate::registers::Register;
use instruction_set::Letter;
use label_search::{Reading, Template, complement_after};

impl Cpu {
    /// The letter after IP, across the end.
    #[inline(always)]
    pub(crate) fn letter_after_ip(&self) -> Letter
        ensures { result ≡ letter_in_memory self.now (place_after self.now self.now.heads.ip) }
    {
        self.sites.letter(self.place_after_ip() as usize)
    }

    /// Moves IP onto a modifier, and gives the register that it picks.
    #[inline(always)]
    #[tactic(auto, unfolding(crate::specs::Operands::on_modifier))]
    pub(crate) fn pick_register(&mut self, default: Register) -> Register
        ensures picked { result ≡ register_picked self.old default }
        ensures moved { self.new ≡ on_modifier self.old }
    {
        let picked = match self.letter_after_ip() {
            Letter::NopA => Register::Ax,
            Letter::NopB => Register::Bx,
            Letter::NopC => Register::Cx,
            _ => return default,
        };
        self.advance();
        self.mark_executed();
        picked
    }

    /// Moves IP onto a modifier, and gives the head that it picks.
    #[inline(always)]
    #[tactic(auto, unfolding(crate::specs::Operands::on_modifier))]
    pub(crate) fn pick_head(&mut self, default: Head) -> Head
        ensures picked { result ≡ head_picked self.old default }
        ensures moved { self.new ≡ on_modifier self.old }
    {
        let picked = match self.letter_after_ip() {
            Letter::NopA => Head::Ip,
            Letter::NopB => Head::Read,
            Letter::NopC => Head::Write,
            _ => return default,
        };
        self.advance();
        self.mark_executed();
        picked
    }

    /// Moves IP onto the last nop of the template after it, marks the first, and gives the
    /// complement.
    #[inline(always)]
    #[tactic(auto, unfolding(crate::specs::Operands::template_of, crate::specs::Operands::on_template))]
    pub(crate) fn read_complement(&mut self) -> Template
        ensures read { result ≡ complements_of (template_of self.old) }
        ensures moved { self.new ≡ on_template self.old }
        ensures few { length result ≤ 10 }
    {
        let Reading { complement, last } = complement_after(
            self.sites.as_slice(),
            self.heads.ip as usize,
        );
        if !complement.is_empty() {
            let first = self.place_after_ip();
            self.sites.mark_executed(first as usize);
            self.heads.ip = last as u32;
        }
        complement
    }

    /// Whether the nops read last are these.
    pub(crate) fn nops_are(&self, template: &Template) -> bool
        ensures { result ≡ same_letters self.now.nops template.now }
    {
        self.nops.equals(template)
    }

    pub(crate) fn find(&self, what: &Template) -> Option<usize>
        requires { 0 < length what.now }
        ensures first { result ≡ first_match self.now.memory what.now }
        ensures within { IfSome result (λ place. place + length what.now ≤ length self.now.memory) }
    {
        label_search::find(self.sites.as_slice(), what)
    }
}
