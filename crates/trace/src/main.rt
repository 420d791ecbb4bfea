// Reads a trace of any length from standard input and writes the answers to standard output.
#![tactic(auto)]

ghost use Rattle.std.specs.Prelude.{◌≤◌, ◌<◌, length, take};
ghost use Rattle.rules.specs.Limits.{most};
ghost use Rattle.lines.specs.Ending.{Closed};
ghost use Rattle.answers.specs.Wrote.{longest};
ghost use Rattle.carrying.specs.Sofar.{Finished};
ghost use Rattle.obeying.specs.Held.{held, Same};
ghost use Rattle.trace.specs.Served.{Served};
ghost use Rattle.trace.specs.Came.{Came};
ghost use Rattle.trace.specs.Turned.{Keeps, Turned};

use obeying::Areas;
use rules::Store;
use std::env::{Env, FillError};
use std::fmt;
use std::io::{Read, Stdin, Stdout, Write};

// Why a trace is not answered to its end.
#[derive(Clone, Copy)]
enum Failure {
    // The input could not be read further; what is kept is not answered.
    Unread,
    // Not all answers could be written.
    Unwritten,
}

impl fmt::Display for Failure {
    fn fmt<W: fmt::Write>(&self, f: &mut fmt::Formatter<W>) -> fmt::Result {
        match self {
            Failure::Unread => write!(f, "the input cannot be read"),
            Failure::Unwritten => write!(f, "the answers cannot be written"),
        }
    }
}

// Answers the lines of a text whose last byte is 10 and writes the answers, as many at a time as out holds.
fn serve(output: &mut Stdout, text: &[u8], areas: &mut Areas, out: &mut [u8]) -> Result<(), Failure>
    requires { Closed text.now × (longest ≤ length out.old) }
    ensures served { Served (held areas.old).store text.now (held areas.new) result }
    ensures same { Same areas.old areas.new }
{
    let mut at = 0;
    while at < text.len() {
        let fed = reader::feed(text, at, areas, out);
        output
            .write_all(&out[..fed.written])
            .map_err(|_| Failure::Unwritten)?;
        at = fed.taken;
    }
    areas.stands();
    Ok(())
}

// Where the bytes to answer end, and whether the input is over: both cases are asked for their end first, so an enum of two would be no plainer.
#[derive(Clone, Copy)]
struct Chunk {
    end: usize,
    last: bool,
}

// Reads once behind the bytes that are kept. Where none come, at the end of the input, byte 10 ends a line that is kept.
fn read_more(input: &mut Stdin, buf: &mut [u8], kept: usize) -> Result<Chunk, Failure>
    requires { kept < length buf.old }
    ensures { Came buf.old kept buf.new result }
{
    let size = input.read(&mut buf[kept..]).map_err(|_| Failure::Unread)?;
    if 0 < size {
        return Ok(Chunk {
            end: kept + size,
            last: false,
        });
    }
    if kept == 0 {
        return Ok(Chunk { end: 0, last: true });
    }
    buf[kept] = 10;
    Ok(Chunk {
        end: kept + 1,
        last: true,
    })
}

// Reads more, answers the whole lines and carries the rest to the front: how many bytes are kept; None where the input is over.
fn turn(
    input: &mut Stdin,
    output: &mut Stdout,
    buf: &mut [u8],
    kept: usize,
    areas: &mut Areas,
    out: &mut [u8],
) -> Result<Option<usize>, Failure>
    requires { Keeps (held areas.old) buf.old kept × (kept < length buf.old) × (longest ≤ length out.old) }
    ensures turned { Turned (held areas.old).store (take kept buf.old) (held areas.new) buf.new result }
    ensures same { Same areas.old areas.new }
{
    let chunk = read_more(input, buf, kept)?;
    let whole = reader::whole(&buf[..chunk.end]);
    serve(output, &buf[..whole], areas, out)?;
    if chunk.last {
        return Ok(None);
    }
    Ok(Some(carrying::carry(buf, whole, chunk.end)))
}

// Writes the last line of the output, where the whole input is answered.
fn finish(output: &mut Stdout, areas: &Areas, out: &mut [u8]) -> Result<(), Failure>
    requires { Finished most (held areas.now).store × (64 ≤ length out.old) }
{
    let tables = areas.tables();
    let size = reader::close(tables.n, tables.states, tables.leaders, out, 0);
    output
        .write_all(&out[..size])
        .map_err(|_| Failure::Unwritten)
}

// Answers the whole trace; where not all can be read or written, no last line is written.
fn run(rt: HostRuntime) -> Result<(), Failure> {
    let mut input = rt.stdin();
    let mut output = rt.stdout();
    // The areas stand in this function's frame, since there is no heap: so they are made here.
    let mut states = [0u8; 1024];
    let mut links = [65535u16; 4096];
    let mut leaders = [65535u16; 1024];
    let mut holds = [0u16; 1024];
    let mut counts = [0u32; 1024];
    let mut register = [0u16; Store::ENTRIES];
    let mut into = [0u16; 1024];
    let mut list = [0u16; 1024];
    let mut work = [0u32; 8192];
    let mut areas = Areas::new(
        Store::MOST,
        &mut states,
        &mut links,
        &mut leaders,
        &mut holds,
        &mut counts,
        &mut register,
        &mut into,
        &mut list,
        &mut work,
        0,
    );
    let mut buf = [0u8; 65536];
    let mut out = [0u8; 65536];
    let mut kept = 0;
    for _ in 0..u64::MAX {
        let next = turn(
            &mut input,
            &mut output,
            &mut buf,
            kept,
            &mut areas,
            &mut out,
        )?;
        let Some(rest) = next else {
            return finish(&mut output, &areas, &mut out);
        };
        kept = rest;
    }
    Ok(())
}

// The program takes no arguments; called with one it says how it is called. Where a trace is not answered to its end, it says why.
fn main(rt: HostRuntime) {
    match rt.arg(1, &mut [0u8; 1]) {
        Err(FillError::NotPresent) => {
            if let Err(failure) = run(rt) {
                let _ = eprintln!(rt; "trace: {failure}");
            }
        }
        _ => {
            let _ = eprintln!(rt; "usage: trace < TRACE");
        }
    }
}
