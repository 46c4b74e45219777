// The lines of a trace.
ghost use Rattle.std.specs.Prelude.{◌≡◌, ◌+◌, ◌≤◌, ◌++◌, codes};
ghost use Rattle.avida_program.specs.Prelude.{flat_map, array_vec_len, rule_name_of, remark_value, traced_value, Writes, spaced, spaced_value};
ghost use Rattle.logic_tasks.specs.LogicTasks as tasks;
ghost use Rattle.avida_program.specs.TraceText.{remark_text, step_text, trace_line};

use avida_port::{Sink, SinkStop};
use divide_rules::Rule;
use logic_tasks::Task;
use organism::{Remark, Traced};
use written_texts::{
    PIECE_SIZE, Piece, make_room, push_integer, push_natural, push_spaced, push_text, write_byte,
    write_letters,
};

/// No line is longer before its letters.
const LINE_ROOM: usize = 192;

fn push_values(piece: &mut Piece, values: &[i32; 3])
    requires { array_vec_len piece.old + 36 ≤ PIECE_SIZE }
    ensures items { piece.new.items ≡ piece.old.items ++ flat_map spaced_value values.now }
    ensures len { array_vec_len piece.new ≤ array_vec_len piece.old + 36 }
{
    for value in values {
        piece.push(b' ');
        push_integer(piece, *value);
    }
}

fn push_step(piece: &mut Piece, number: u32, traced: &Traced)
    requires { array_vec_len piece.old + 90 ≤ PIECE_SIZE }
    ensures items { piece.new.items
        ≡ piece.old.items ++ step_text number (traced_value traced.now) }
    ensures len { array_vec_len piece.new ≤ array_vec_len piece.old + 90 }
{
    push_natural(piece, number as u64);
    push_spaced(piece, traced.place as u64);
    piece.push(b' ');
    push_text(piece, traced.letter.name());
    push_values(piece, &traced.registers);
}

fn push_task(piece: &mut Piece, task: Task)
    requires { array_vec_len piece.old + 5 ≤ PIECE_SIZE }
    ensures { piece.new.items ≡ piece.old.items ++ codes " " ++ tasks.task_name task }
{
    piece.push(b' ');
    push_text(piece, task.name());
}

fn push_refused(piece: &mut Piece, rule: Rule, found: u32, bound: u32)
    requires { array_vec_len piece.old + 60 ≤ PIECE_SIZE }
    ensures { piece.new.items
        ≡ piece.old.items ++ codes " refused " ++ rule_name_of rule
        ++ spaced found ++ spaced bound }
{
    push_text(piece, " refused ");
    push_text(piece, rule.name());
    push_spaced(piece, found as u64);
    push_spaced(piece, bound as u64);
}

fn push_divide(piece: &mut Piece, executed: u32, copied: u32, merit: u64)
    requires { array_vec_len piece.old + 71 ≤ PIECE_SIZE }
    ensures { piece.new.items
        ≡ piece.old.items ++ codes " divide" ++ spaced executed ++ spaced copied
        ++ spaced merit ++ codes " " }
{
    push_text(piece, " divide");
    push_spaced(piece, executed as u64);
    push_spaced(piece, copied as u64);
    push_spaced(piece, merit);
    piece.push(b' ');
}

fn write_remark<O: Sink>(piece: &mut Piece, remark: &Remark, out: &mut O) -> Result<(), SinkStop>
    requires { array_vec_len piece.old + 71 ≤ PIECE_SIZE }
    ensures { Writes (O.seen out.old) (O.seen out.new) piece.old.items piece.new.items
        (remark_text (remark_value remark.now)) result }
{
    match remark {
        Remark::Nothing => Ok(()),
        Remark::Task(task) => {
            push_task(piece, *task);
            Ok(())
        }
        Remark::Refused { rule, found, bound } => {
            push_refused(piece, *rule, *found, *bound);
            Ok(())
        }
        Remark::Divide {
            executed,
            copied,
            merit,
            child,
        } => {
            push_divide(piece, *executed, *copied, *merit);
            write_letters(piece, child.letters(), out)
        }
    }
}

/// Adds the line of a step to the piece.
pub fn write_line<O: Sink>(
    piece: &mut Piece,
    number: u32,
    traced: &Traced,
    out: &mut O,
) -> Result<(), SinkStop>
    ensures { Writes (O.seen out.old) (O.seen out.new) piece.old.items piece.new.items
        (trace_line number (traced_value traced.now)) result }
{
    make_room(piece, LINE_ROOM, out)?;
    push_step(piece, number, traced);
    write_remark(piece, &traced.remark, out)?;
    write_byte(piece, b'\n', out)
}
