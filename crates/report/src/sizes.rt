ghost use Rattle.std.specs.Prelude.{◌≡◌, ◌≤◌, ◌++◌, length, IfOk, string_bytes, OnOk};
ghost use Rattle.report.specs.Files.{OnPrinted, sizes_of};
ghost use Rattle.report.specs.Lines.{numbered};
ghost use Rattle.report.specs.Sizes.{RequestText, deepened, deepened_line};
ghost use Rattle.report.specs.Texts.{Prints};

use crate::file::NetlistFile;
use crate::listing::add_lines;
use crate::request::Request;
use crate::telling::or_refusal;
use crate::texts::checked_text;
use checking::check;
use netlist::{CHANNELS, ReadError};
use sizing::size;
use std::alloc::{AllocError, Global};

/// The lines of a sizing of a netlist file for a target: the slots added, the queues that became deeper, and the rating under the new
/// sizing; or the refusal's line alone.
pub fn size_text(heap: Global, file: &[u8], request: Request) -> Result<String, AllocError>
    ensures { IfOk result (λ text. Prints (RequestText request) file.now (string_bytes text)) }
{
    let told = NetlistFile::read(heap, file).and_then(|file| request_text(heap, &file, request));
    or_refusal(heap, told)
}

// The same of a file that was read.
fn request_text(heap: Global, file: &NetlistFile, request: Request) -> Result<String, ReadError>
    ensures { OnPrinted (RequestText request file.now.netlist (sizes_of file.now)) result }
{
    let Request {
        target,
        allowance,
        cap,
    } = request;
    let checked = check(file.netlist())?;
    let before = file.sizing();
    let channels = before.len();
    let caps = [cap; CHANNELS];
    let mut table = [0; CHANNELS];
    let sizing = &mut table[..channels];
    sizing.copy_from_slice(before);
    let added = size(checked, target, &caps[..channels], allowance, sizing)?;
    let rating = checked_text(heap, checked, sizing)?;
    let mut text = format!(in heap; "added {added}\n")?;
    add_deepened(heap, &mut text, before, sizing)?;
    text.push_str(rating.as_str())?;
    Ok(text)
}

// The line of a channel whose queue became deeper, or nothing.
fn deepened_text(heap: Global, number: usize, before: u8, after: u8) -> Result<String, AllocError>
    ensures { IfOk result (λ s. string_bytes s ≡ deepened number before after) }
{
    if before == after {
        return Ok(String::new(heap));
    }
    format!(in heap; "channel {number}: {before} -> {after}\n")
}

/// Adds a line for each queue that became deeper.
pub fn add_deepened(
    heap: Global,
    text: &mut String,
    before: &[u8],
    after: &[u8],
) -> Result<(), AllocError>
    requires { length after.now ≤ length before.now }
    ensures { OnOk result (string_bytes text.new ≡ string_bytes text.old ++ numbered (deepened_line before.now) 1 after.now) }
{
    add_lines(text, after, |number, size| {
        deepened_text(heap, number, before[number - 1], *size)
    })
}
