//! The program: the real streams and the words, handed to `serve`.
#![tactic(auto)]

use avida_port::{NoGate, StdSink, StdSource};
use avida_program::{Status, serve};
use std::env;
use std::io::ErrorKind;
use std::process::ExitCode;

// The words after the name of the program, or None when out of memory. Words that aren't UTF-8
// count as no words at all.
fn words(rt: &HostRuntime) -> Option<Vec<String>> {
    let mut words = Vec::new(rt.alloc());
    let args = match env::args(rt) {
        Ok(args) => args,
        Err(error) if error.kind() == ErrorKind::OutOfMemory => return None,
        Err(_) => return Some(words),
    };
    for word in args.skip(1) {
        words.push(word).ok()?;
    }
    Some(words)
}

fn main(rt: HostRuntime) -> ExitCode {
    let Some(words) = words(&rt) else {
        return ExitCode::from(Status::NoMemory.number());
    };
    let mut source = StdSource::new(&rt);
    let mut out = StdSink::out(&rt);
    let mut watch = StdSink::err(&rt);
    let mut err = StdSink::err(&rt);
    let mut last = None;
    let status = serve(
        &rt,
        rt.alloc(),
        &words,
        &mut source,
        &mut out,
        &mut watch,
        &mut err,
        &mut last,
        &NoGate,
    );
    ExitCode::from(status.number())
}
