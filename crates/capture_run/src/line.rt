//! The lines of the verdicts.

ghost use Rattle.std.specs.Prelude.{◌≡◌, ◌<◌, ◌≤◌, ◌++◌, ◌+◌, length, vec_capacity, vec_len, IfOk, OnOk, OnErr, codes, decimal};
ghost use Rattle.capture_run.specs.Lines.{verdict_line_of};

use itoa::{Buffer, Integer};
use shelf_core::NoMemory;
use std::alloc::Global;

/// The most bytes of a verdict line: four numbers, each with a byte after it, of 20, 10, 10 and 20 digits.
pub const LINE_LIMIT: usize = 64;

/// The line of one packet's verdict, `INDEX VERDICT TARGET LENGTH`: the packet's number from 0, the
/// program's answer, the interface that it is sent to, and its length in bytes.
pub fn verdict_line(
    alloc: Global,
    index: u64,
    verdict: u32,
    target: u32,
    length: u64,
) -> Result<Vec<u8>, NoMemory>
    ensures { IfOk result (λ line. line.items ≡ verdict_line_of index verdict target length) }
{
    let mut line = Vec::new(alloc);
    write_line(&mut line, index, verdict, target, length)?;
    Ok(line)
}

/// Makes a buffer hold just this line. It takes no memory where the buffer has room for the longest one.
pub fn write_line(
    line: &mut Vec<u8>,
    index: u64,
    verdict: u32,
    target: u32,
    length: u64,
) -> Result<(), NoMemory>
    ensures ok { OnOk result (line.new.items ≡ verdict_line_of index verdict target length) }
    ensures full { OnErr result (vec_capacity line.old < LINE_LIMIT) }
    ensures room { vec_capacity line.old ≤ vec_capacity line.new }
{
    line.clear();
    line.reserve(LINE_LIMIT)?;
    push_decimal(line, index, b" ")?;
    push_decimal(line, verdict, b" ")?;
    push_decimal(line, target, b" ")?;
    push_decimal(line, length, b"\n")
}

/// Adds a number and what follows it.
pub fn push_decimal<I: Integer>(line: &mut Vec<u8>, number: I, after: &[u8]) -> Result<(), NoMemory>
    ensures ok { OnOk result (line.new.items ≡ line.old.items ++ I.text number ++ after.now) }
    ensures full { OnErr result (vec_capacity line.old < vec_len line.old + I.MAX_STR_LEN + length after.now) }
    ensures grows { vec_len line.new ≤ vec_len line.old + I.MAX_STR_LEN + length after.now }
    ensures room { vec_capacity line.old ≤ vec_capacity line.new }
{
    let mut buffer = Buffer::new();
    line.extend_from_slice(buffer.format(number).as_bytes())?;
    line.extend_from_slice(after)
}
