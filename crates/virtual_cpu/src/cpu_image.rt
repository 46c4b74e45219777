// What a saved machine is made of.
use avida_port::Items;
use instruction_set::Letter;
use label_search::Template;

/// A list of letters.
pub type Letters = Items<Letter>;

/// A list that tells for each place whether it is marked.
pub type Marks = Items<bool>;

/// The values of a machine. The length of the genome that it was made for and its limit of memory
/// stand beside them.
#[derive(Drop)]
pub struct CpuImage {
    /// AX, BX and CX.
    pub registers: [i32; 3],
    /// The place of the active stack, 0 or 1.
    pub active: u8,
    /// The places of IP, READ, WRITE and FLOW.
    pub heads: [u32; 4],
    /// Whether an allocation is pending.
    pub pending: bool,
    /// The nops read last.
    pub nops: Template,
    /// The first stack, from its top.
    pub first: [i32; 10],
    /// The second stack, from its top.
    pub second: [i32; 10],
    pub memory: Letters,
    /// What was copied, before any copy error.
    pub clean: Letters,
    pub executed: Marks,
    pub copied: Marks,
}
