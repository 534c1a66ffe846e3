ghost use Rattle.std.specs.Prelude.{◌≡◌, ◌+◌, ◌++◌, length, IfOk, string_bytes, OnOk};
ghost use Rattle.trace_text.specs.Lines.{calls_in, trace_lines};
ghost use Rattle.report.specs.Files.{OnPrinted, sizes_of};
ghost use Rattle.report.specs.Texts.{Prints};
ghost use Rattle.trace_text.specs.Traces.{TraceText};

use crate::answers::add_answers;
use crate::command::Command;
use crate::requests::requests_of;
use crate::table::{add_fills, add_firings};
use checking::check;
use cores::SumSet;
use netlist::{CHANNELS, Module, ReadError};
use play::{Exchange, trial};
use report::{NetlistFile, Request, add_deepened, or_refusal};
use std::alloc::{AllocError, Global};

// As many items as the queues of the most channels that a netlist can have can hold, and one more in each. The table is an array of
// that length, as the definition of the text says: a Vec would be no plainer.
const ITEMS: usize = 3264;

/// The lines of a trace of a netlist file: the slots added for a target, the queues that became deeper, each command with its answer, the
/// firings of each module, and the fill and the front of each channel; or the refusal's line alone.
pub fn trace_text(
    heap: Global,
    file: &[u8],
    request: Request,
    commands: &[Command],
) -> Result<String, AllocError>
    ensures { IfOk result (λ text. Prints (TraceText request commands.now) file.now (string_bytes text)) }
{
    let told = NetlistFile::read(heap, file).and_then(|file| netlist_text(
        heap, &file, request, commands,
    ));
    or_refusal(heap, told)
}

// The same of a file that was read.
fn netlist_text(
    heap: Global,
    file: &NetlistFile,
    request: Request,
    commands: &[Command],
) -> Result<String, ReadError>
    ensures { OnPrinted (TraceText request commands.now file.now.netlist (sizes_of file.now)) result }
{
    let netlist = file.netlist();
    let before = file.sizing();
    let checked = check(netlist)?;
    let modules = netlist.modules();
    let channels = netlist.channels().len();
    let mut exchanges = requests_of(heap, commands, modules.len() as u8, channels as u8)?;
    let caps = [request.cap; CHANNELS];
    let mut table = [0; CHANNELS];
    let sizing = &mut table[..channels];
    sizing.copy_from_slice(before);
    let mut items = [0; ITEMS];
    let (added, _) = trial(
        checked,
        request.target,
        &caps[..channels],
        request.allowance,
        sizing,
        SumSet::new(),
        exchanges.as_mut_slice(),
        &mut items,
    );
    let added = added?;
    let mut text = format!(in heap; "added {added}\n")?;
    add_deepened(heap, &mut text, before, sizing)?;
    add_exchanges(
        heap,
        &mut text,
        commands,
        modules,
        channels,
        exchanges.as_slice(),
    )?;
    Ok(text)
}

// The lines of the commands, and behind them the table of the modules and the channels.
fn add_exchanges(
    heap: Global,
    text: &mut String,
    commands: &[Command],
    modules: &[Module],
    channels: usize,
    exchanges: &[Exchange<u32>],
) -> Result<(), AllocError>
    requires { length exchanges.now ≡ calls_in commands.now + length modules.now + channels + channels }
    ensures { OnOk result (string_bytes text.new ≡ string_bytes text.old ++ trace_lines commands.now modules.now channels exchanges.now) }
{
    let questions = exchanges.len() - modules.len() - channels - channels;
    let fills = questions + modules.len();
    let fronts = fills + channels;
    add_answers(heap, text, commands, &exchanges[0..questions])?;
    add_firings(heap, text, modules, &exchanges[questions..fills])?;
    add_fills(
        heap,
        text,
        &exchanges[fills..fronts],
        &exchanges[fronts..exchanges.len()],
    )
}
