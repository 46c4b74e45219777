// The logic tasks.
use logic_tasks::{Inputs, Task, done};
use std::process::Abort;

// The inputs are 0x0F000000, 0x33000000 and 0x55000000.
fn done_after(output: u32, read: u64) -> Option<Task> {
    done(output.cast_signed(), &Inputs::of([0; 3]), read)
}

/// Each of these outputs after so many inputs does the task, or none.
fn each_does(rt: &impl Abort, task: Option<Task>, outputs: &[(u32, u64)]) {
    for case in outputs {
        let (output, read) = *case;
        assert_eq!(rt; done_after(output, read), task, "at {output:x}, {read}");
    }
}

#[test]
fn each_task_is_told_from_its_output_and_the_inputs_read(rt: HostRuntime) {
    let nots: [(u32, u64); 3] = [(0xF0FF_FFFF, 1), (0xF0FF_FFFF, 2), (0xCCFF_FFFF, 2)];
    each_does(&rt, Some(Task::Not), &nots);
    let nands: [(u32, u64); 3] = [(0xFCFF_FFFF, 2), (0xFAFF_FFFF, 3), (0xFAFF_FFFF, 1000)];
    each_does(&rt, Some(Task::Nand), &nands);
    each_does(&rt, Some(Task::And), &[(0x0300_0000, 2)]);
    each_does(&rt, Some(Task::Orn), &[(0xCFFF_FFFF, 2), (0xF3FF_FFFF, 2)]);
    each_does(&rt, Some(Task::Or), &[(0x3F00_0000, 2)]);
    each_does(&rt, Some(Task::Andn), &[(0x0C00_0000, 2), (0x3000_0000, 2)]);
    each_does(&rt, Some(Task::Nor), &[(0xC0FF_FFFF, 2)]);
    each_does(&rt, Some(Task::Xor), &[(0x3C00_0000, 2)]);
    each_does(&rt, Some(Task::Equ), &[(0xC3FF_FFFF, 2)]);
    let unread: [(u32, u64); 3] = [(0xF0FF_FFFF, 0), (0xFCFF_FFFF, 1), (0xFAFF_FFFF, 2)];
    each_does(&rt, None, &unread);
    let inputs: [(u32, u64); 2] = [(0x0F00_0000, 2), (0x3300_0000, 2)];
    each_does(&rt, None, &inputs);
    each_does(&rt, None, &[(0, 2), (0xFFFF_FFFF, 2), (0xF0FF_FFFE, 2)]);
}
