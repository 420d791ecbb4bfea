// Stored traces: each is answered and compared with the output that is stored beside it.
#![tactic(auto)]

ghost use Rattle.std.specs.Prelude.{◌≡◌, true, ◌≤◌, length};
ghost use Rattle.rules.specs.Limits.{most_trace};
ghost use Rattle.rules.specs.Trace.{trace};

use std::env::{Env, FillError};
use std::fs::File;
use std::io::Read;

// Whether a trace gives just this output, by way of a room that fits it.
fn gives(text: &[u8], output: &[u8], room: &mut [u8]) -> bool
    requires { length room.old ≡ length output.now }
    ensures { (result ≡ true → trace text.now ≡ output.now) ×
        (length text.now ≤ most_trace → trace text.now ≡ output.now → result ≡ true) }
{
    let size = lending::lent_trace(text, room);
    size == output.len() as u64 && *room == *output
}

// The bytes of argument i: none where there is no such argument, or where it does not fit.
fn word<'a>(rt: HostRuntime, i: usize, name: &'a mut [u8]) -> &'a [u8]
    ensures { length result.now ≤ length name.old }
{
    let size = rt.arg(i, name).unwrap_or(0);
    &name[..size]
}

// A file's bytes, to its end or as many as fit.
fn read_full<'a>(file: &mut File, text: &'a mut [u8]) -> &'a [u8]
    ensures { length result.now ≤ length text.old }
{
    let mut done = 0;
    while done < text.len() {
        match file.read(&mut text[done..]) {
            Ok(0) | Err(_) => break,
            Ok(size) => done += size,
        }
    }
    &text[..done]
}

// The bytes of the file that argument i names: none where it cannot be opened.
fn read_file<'a>(rt: HostRuntime, i: usize, text: &'a mut [u8]) -> &'a [u8]
    ensures { length result.now ≤ length text.old }
{
    let mut name = [0u8; 4096];
    let Ok(path) = str::from_utf8(word(rt, i, &mut name)) else {
        return &[];
    };
    let Ok(mut file) = File::open(&rt, path) else {
        return &[];
    };
    read_full(&mut file, text)
}

// Says of the trace that argument i names whether it gives its output.
fn say(rt: HostRuntime, i: usize, good: bool) {
    let mut name = [0u8; 4096];
    let _ = rt.write_all(word(rt, i, &mut name));
    let said = if good {
        "gives its output"
    } else {
        "gives something else"
    };
    let _ = println!(rt; " {said}");
}

// Compares the trace that argument i names with the output that argument j names.
fn compare(rt: HostRuntime, i: usize, j: usize) {
    let mut text = [0u8; 65536];
    let mut output = [0u8; 65536];
    let mut room = [0u8; 65536];
    let trace = read_file(rt, i, &mut text);
    let wanted = read_file(rt, j, &mut output);
    let good = gives(trace, wanted, &mut room[..wanted.len()]);
    say(rt, i, good);
}

// The arguments: a trace, its output, a trace, its output, ...
fn main(rt: HostRuntime) {
    for k in 0..usize::MAX / 2 {
        match rt.arg(2 * k + 1, &mut [0u8; 1]) {
            Err(FillError::NotPresent) => return,
            _ => compare(rt, 2 * k + 1, 2 * k + 2),
        }
    }
}
