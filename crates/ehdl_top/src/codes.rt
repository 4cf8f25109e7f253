// The texts of lines: words, codes and numbers in decimal.

ghost use Rattle.std.specs.Prelude.{◌≡◌, ◌++◌, IfOk, codes, decimal};
ghost use Rattle.ehdl_top.specs.Lines.{capture_code, maps_code, verilog_code, refusal_code};

use capture_run::push_decimal;
use maps_text::MapsError;
use pcap_core::PcapError;
use std::alloc::{AllocError, Global};
use verilog_read::ReadError;
use xdp_state::{Refusal, Why};

/// The line of a refusal.
pub(crate) fn refusal_line(alloc: Global, refusal: Refusal) -> Result<Vec<u8>, AllocError>
    ensures { IfOk result (λ line. line.items ≡ codes "refused " ++ refusal_code refusal ++ codes "\n") }
{
    let code = refusal_code(alloc, refusal)?;
    named(alloc, b"refused ", &code)
}

// The place, the number of the reason, and that of an unknown helper.
fn refusal_code(alloc: Global, refusal: Refusal) -> Result<Vec<u8>, AllocError>
    ensures { IfOk result (λ text. text.items ≡ refusal_code refusal) }
{
    let mut text = Vec::new(alloc);
    push_decimal(&mut text, refusal.at, b" ")?;
    push_decimal(&mut text, refusal.why.number(), b"")?;
    if let Why::Helper(id) = refusal.why {
        text.extend_from_slice(b" ")?;
        push_decimal(&mut text, id, b"")?;
    }
    Ok(text)
}

/// A line of a word and a name.
pub(crate) fn named(alloc: Global, word: &[u8], name: &[u8]) -> Result<Vec<u8>, AllocError>
    ensures { IfOk result (λ line. line.items ≡ word.now ++ name.now ++ codes "\n") }
{
    let mut line = Vec::from_slice(alloc, word)?;
    line.extend_from_slice(name)?;
    line.extend_from_slice(b"\n")?;
    Ok(line)
}

/// A line of a word and two numbers.
pub(crate) fn numbered(
    alloc: Global,
    word: &[u8],
    first: u64,
    second: u64,
) -> Result<Vec<u8>, AllocError>
    ensures { IfOk result (λ line. line.items ≡ word.now ++ decimal first ++ codes " " ++ decimal second ++ codes "\n") }
{
    let mut line = Vec::from_slice(alloc, word)?;
    push_decimal(&mut line, first, b" ")?;
    push_decimal(&mut line, second, b"\n")?;
    Ok(line)
}

/// The line of a capture's fault.
pub(crate) fn capture_line(alloc: Global, fault: PcapError) -> Result<Vec<u8>, AllocError>
    ensures { IfOk result (λ line. line.items ≡ codes "input capture " ++ capture_code fault ++ codes "\n") }
{
    let code = capture_code(alloc, fault)?;
    named(alloc, b"input capture ", &code)
}

// The code of a capture's fault, and its numbers.
fn capture_code(alloc: Global, fault: PcapError) -> Result<Vec<u8>, AllocError>
    ensures { IfOk result (λ text. text.items ≡ capture_code fault) }
{
    match fault {
        PcapError::Short { at } => coded(alloc, b"P1 ", at),
        PcapError::Magic => Vec::from_slice(alloc, b"P2"),
        PcapError::Version => Vec::from_slice(alloc, b"P3"),
        PcapError::Link { n } => coded(alloc, b"P4 ", u64::from(n)),
        PcapError::Frame { index, length } => {
            let mut text = coded(alloc, b"P5 ", index)?;
            text.extend_from_slice(b" ")?;
            push_decimal(&mut text, length, b"")?;
            Ok(text)
        }
    }
}

// A code and a number.
fn coded(alloc: Global, code: &[u8], number: u64) -> Result<Vec<u8>, AllocError>
    ensures { IfOk result (λ text. text.items ≡ code.now ++ decimal number) }
{
    let mut text = Vec::from_slice(alloc, code)?;
    push_decimal(&mut text, number, b"")?;
    Ok(text)
}

/// The line of the first bad line of a text of maps.
pub(crate) fn maps_line(alloc: Global, error: MapsError) -> Result<Vec<u8>, AllocError>
    ensures { IfOk result (λ line. line.items ≡ codes "input maps " ++ maps_code error ++ codes "\n") }
{
    let code = maps_code(alloc, error)?;
    named(alloc, b"input maps ", &code)
}

// The code of a text's first bad line, and its number.
fn maps_code(alloc: Global, error: MapsError) -> Result<Vec<u8>, AllocError>
    ensures { IfOk result (λ text. text.items ≡ maps_code error) }
{
    match error {
        MapsError::Line { n } => coded(alloc, b"M1 ", n),
        MapsError::Unknown { n } => coded(alloc, b"M2 ", n),
        MapsError::Length { n } => coded(alloc, b"M3 ", n),
        MapsError::Twice { n } => coded(alloc, b"M4 ", n),
        MapsError::Full { n } => coded(alloc, b"M5 ", n),
        MapsError::NoMemory => Ok(Vec::new(alloc)),
    }
}

/// The line of the first error of a Verilog text.
pub(crate) fn verilog_line(alloc: Global, error: ReadError) -> Result<Vec<u8>, AllocError>
    ensures { IfOk result (λ line. line.items ≡ codes "input verilog " ++ verilog_code error ++ codes "\n") }
{
    let code = verilog_code(alloc, error)?;
    named(alloc, b"input verilog ", &code)
}

// The code of a text's error, and its place or its port.
fn verilog_code(alloc: Global, error: ReadError) -> Result<Vec<u8>, AllocError>
    ensures { IfOk result (λ text. text.items ≡ verilog_code error) }
{
    match error {
        ReadError::Lex { at } => coded(alloc, b"V1 ", at as u64),
        ReadError::Syntax { at } => coded(alloc, b"V2 ", at as u64),
        ReadError::Unknown { at } => coded(alloc, b"V3 ", at as u64),
        ReadError::Twice { at } => coded(alloc, b"V4 ", at as u64),
        ReadError::Width { at } => coded(alloc, b"V5 ", at as u64),
        ReadError::Order { at } => coded(alloc, b"V6 ", at as u64),
        ReadError::Ports { port } => coded(alloc, b"V7 ", u64::from(port)),
        ReadError::NoMemory => Ok(Vec::new(alloc)),
    }
}
