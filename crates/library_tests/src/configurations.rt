// Configurations, printed.
use std::alloc::Global;
use std::test::Fail;
use world_config::{print, read};

/// The document of the defaults.
const PLAIN: &str = "age_limit = 20
ancestor = \"wzcagcccccccccccccccccccccccccccccccccccccccccccccccccccccccccccccccccccccccccccccccccccccczvfcaxgab\"
average_slices = 30
copied_percent = 50
copy_error = 7500
death = true
divide_delete = 50000
divide_insert = 50000
event = []
executed_percent = 50
founder_cell = 0
greatest_length = 2048
height = 60
least_length = 8
memory_limit = 2048
need_alloc = true
prefer_empty = true
seed = 1
site_delete = 0
site_insert = 0
site_point = 0
updates = 100
width = 60
";

/// A document with an event of each form.
const EVENTS: &str =
    "event = [{ kind = \"inject\", update = 3, cell = 1, letters = \"aaaaaaab\" }, { kind = \"clear\", update = 3, first = 2, last = 5 }, { kind = \"rate\", update = 4, name = \"copy_error\", ppm = 5 }]";

/// How its events are printed.
const PRINTED_EVENTS: &str = "
[[event]]
cell = 1
kind = \"inject\"
letters = \"aaaaaaab\"
update = 3

[[event]]
first = 2
kind = \"clear\"
last = 5
update = 3

[[event]]
kind = \"rate\"
name = \"copy_error\"
ppm = 5
update = 4
";

/// What is printed of the configuration that a document gives.
fn printed(alloc: Global, document: &str) -> Result<String, Fail> {
    let Ok(config) = read(alloc, document.as_bytes()) else {
        return Err("refused".into());
    };
    match print(alloc, &config) {
        Ok(text) => Ok(text),
        Err(_memory) => Err("memory".into()),
    }
}

#[test]
fn the_defaults_and_events_are_printed_and_read_back(rt: HostRuntime) -> Result<(), Fail> {
    let plain = printed(rt.alloc(), "")?;
    assert_eq!(rt; plain.as_str(), PLAIN);
    let text = printed(rt.alloc(), EVENTS)?;
    assert!(rt; text.as_str().ends_with(PRINTED_EVENTS), "in {text}");
    let again = printed(rt.alloc(), text.as_str())?;
    assert_eq!(rt; again.as_str(), text.as_str());
    Ok(())
}
