ghost use Rattle.std.specs.Prelude.{◌≡◌, [], None};
ghost use Rattle.log_lines.specs.Line as line;
ghost use Rattle.log_lines.specs.Line.{birth_values, line_values};

use crate::log_line::LogLine;
use mutations::{Base, Changes, Origin};
use std::alloc::Global;
use std::mem;

/// A birth, as its line tells it.
#[derive(Drop)]
pub struct Birth {
    pub id: u64,
    pub parent: u64,
    pub update: u32,
    pub cell: u32,
    /// The organism that the newborn replaced, if any.
    pub over: Option<u64>,
    pub origin: Origin,
}

impl Birth {
    /// A birth to read others into. All its numbers are 0, its base is the parent's genome, and it
    /// has no changes. It takes no memory.
    pub fn blank(alloc: Global) -> Birth
        ensures { birth_values result
            ≡ line.Birth 0 0 0 0 None (record { written = None; changes = [] }) }
    {
        Birth {
            id: 0,
            parent: 0,
            update: 0,
            cell: 0,
            over: None,
            origin: Origin {
                base: Base::Parent,
                changes: Changes::none(alloc),
            },
        }
    }

    /// The line of this birth. What is left has the parent's genome as its base, and no changes.
    pub fn take_line(&mut self, alloc: Global) -> LogLine
        ensures line { line_values result ≡ birth_values self.old }
        ensures left { birth_values self.new ≡ line.Birth self.old.id self.old.parent self.old.update
            self.old.cell self.old.over (record { written = None; changes = [] }) }
    {
        let blank = Birth::blank(alloc);
        let origin = mem::replace(&mut self.origin, blank.origin);
        LogLine::Birth {
            id: self.id,
            parent: self.parent,
            update: self.update,
            cell: self.cell,
            over: self.over,
            origin,
        }
    }
}
