// The world that a command leaves.
use crate::served::serve_on;
use avida_port::{NoGate, SureSink};
use genome::letters_text;
use std::alloc::Global;
use std::test::Fail;
use world_core::World;

/// One cell for 13 updates without errors.
const ONE_CELL: &str = "width = 1
height = 1
updates = 13
copy_error = 0
divide_insert = 0
divide_delete = 0
";

/// Words and an input, which may be the name of one, with the world that is left: how many live in
/// it or are an ancestor, its cells, its counts, the length of its bank, and who lives where, with
/// the genome's number. Of the last world it is the begin: an independent program wrote its log, in
/// which these organisms live at the end or are an ancestor, and so many genomes are different.
const WORLDS: &str = "run
=>
updates = 0
=>
1 nodes
3600 cells
U 0 1 0 0 1 100 0 0 0 0 0 0 0 0 0
bank of 1
0 0 wzcagcccccccccccccccccccccccccccccccccccccccccccccccccccccccccccccccccccccccccccccccccccccczvfcaxgab
end
---
lineage 0
=>
one cell
=>
2 nodes
1 cells
U 13 1 1 1 1 97 0 0 0 0 0 0 0 0 0
bank of 1
0 0 wzcagcccccccccccccccccccccccccccccccccccccccccccccccccccccccccccccccccccccccccccccccccccccczvfcaxgab
end
---
run
=>
width = 1
height = 1
updates = 10
age_limit = 1
ancestor = \"aaaaaaaaaaaaaaaaaaaaaaaaaaaaaaaaaaaaaaaaaaaaaaaaaaaaaaaaaaaaaaaaaaaaaaaaaaaaaaaaaaaaaaaaaaaaaaaaaaaa\"
=>
0 nodes
1 cells
U 10 0 0 0 0 0 0 0 0 0 0 0 0 0 0
bank of 1
end
---
run --watch 0 --workers 64
=>
width = 2
height = 1
updates = 2
event = [{ kind = \"inject\", update = 1, cell = 1, letters = \"aaaaaaaa\" }]
=>
2 nodes
2 cells
U 2 2 0 0 2 108 0 0 0 0 0 0 0 0 0
bank of 2
0 0 wzcagcccccccccccccccccccccccccccccccccccccccccccccccccccccccccccccccccccccccccccccccccccccczvfcaxgab
1 1 aaaaaaaa
end
---
run
=>
width = 1
height = 1
updates = 2
copy_error = 0
divide_insert = 0
divide_delete = 0
event = [{ kind = \"clear\", update = 1, first = 0, last = 0 }]
=>
0 nodes
1 cells
U 2 0 0 0 0 0 0 0 0 0 0 0 0 0 0
bank of 1
end
---
run --workers 4
=>
width = 5
height = 5
updates = 12
seed = 4
average_slices = 200
ancestor = \"wzcagczvfcaxgab\"
prefer_empty = false
=>
88 nodes
25 cells
U 12 25 71 71 6 300 0 0 0 0 0 0 0 0 0
bank of 132
";

/// Words and an input that leave no world.
const NO_WORLDS: [(&str, &str); 5] = [
    ("run", "width = 0\n"),
    ("run --workers 65", ONE_CELL),
    ("lineage 1", ONE_CELL),
    ("replay", "L 2 1 1 0 aaaaaaaa\nE 0\n"),
    ("trace 1", "mmmmmmmm\n"),
];

/// The world as a text, with its counts in the order of the log.
fn text_of(alloc: Global, world: &World) -> Result<Vec<u8>, Fail> {
    let stats = world.stats();
    let counts = format!(in alloc;
        "{} nodes\n{} cells\nU {} {} {} {} {} {}",
        world.nodes(),
        world.cells(),
        stats.update,
        stats.living,
        stats.births,
        stats.deaths,
        stats.genotypes,
        stats.merit
    )?;
    let mut text = counts.as_bytes().to_vec(alloc)?;
    for count in &stats.tasks {
        text.extend_from_slice(format!(in alloc; " {count}")?.as_bytes())?;
    }
    text.extend_from_slice(format!(in alloc; "\nbank of {}\n", world.bank_len())?.as_bytes())?;
    for cell in 0..world.cells() {
        if let Some(genome) = world.genome_at(cell) {
            let number = world.handle_at(cell).ok_or("no number")?;
            text.extend_from_slice(format!(in alloc; "{cell} {number} ")?.as_bytes())?;
            if letters_text(genome, &mut text).is_err() {
                return Err("memory".into());
            }
            text.push(b'\n')?;
        }
    }
    text.extend_from_slice(b"end\n")?;
    Ok(text)
}

#[test]
fn the_world_after_the_last_update_is_left(rt: HostRuntime) -> Result<(), Fail> {
    let alloc = rt.alloc();
    let mut watch = SureSink::new(alloc);
    for case in WORLDS.split("---\n") {
        let (words, rest) = case.split_once("\n=>\n").ok_or("no input")?;
        let (input, wanted) = rest.split_once("=>\n").ok_or("no world")?;
        let input = if input == "one cell\n" {
            ONE_CELL
        } else {
            input
        };
        let (_, last) = serve_on(&rt, alloc, words, input.as_bytes(), &mut watch, &NoGate)?;
        let world = last.ok_or("nothing left")?;
        let text = text_of(alloc, &world)?;
        assert!(rt; text.starts_with(wanted.as_bytes()), "{case}");
        assert_eq!(rt; world.update(), world.stats().update, "{case}");
    }
    for (words, input) in NO_WORLDS {
        let (_, last) = serve_on(&rt, alloc, words, input.as_bytes(), &mut watch, &NoGate)?;
        assert!(rt; last.is_none(), "{words}");
    }
    Ok(())
}
