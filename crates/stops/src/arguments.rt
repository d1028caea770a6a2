// The program's arguments. Document 01 has none: with any, no commands are served.
use crate::streams;
use std::env::{Env, FillError};

// The version is that of docs/CHANGELOG.md.
fn print_version(rt: &(impl Print + Eprint)) {
    streams::write_all(rt, b"stops 0.12.0\n");
}

fn print_usage(rt: &impl Eprint) {
    let _ = eprintln!(rt; "usage: stops < COMMANDS > RECORDS, or stops --version");
}

// Answers the first argument, or says that there is none. One that is too long for the buffer is no version's.
pub fn answered(rt: &(impl Env + Print + Eprint)) -> bool {
    let mut word = [0u8; 16];
    match rt.arg(1, &mut word) {
        Err(FillError::NotPresent) => return false,
        Ok(n) if &word[..n] == b"--version".as_slice() => print_version(rt),
        _ => print_usage(rt),
    }
    true
}
