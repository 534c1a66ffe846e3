use drafts::line;
use netlist::{Kind, Netlist, ReadError, read};
use std::alloc::{AllocError, Global};

// What becomes of a file: the counts and the last records that were read, or the refusal.
pub fn outcome(heap: Global, file: &[u8]) -> anyhow::Result<String> {
    line(heap, contents(heap, file))
}

fn contents(heap: Global, file: &[u8]) -> Result<String, ReadError> {
    let mut netlist = Netlist::new(heap)?;
    let mut sizing = [9; 192];
    read(heap, file, &mut netlist, &mut sizing)?;
    Ok(summary(heap, &netlist, &sizing)?)
}

fn summary(heap: Global, netlist: &Netlist, sizing: &[u8]) -> Result<String, AllocError> {
    let modules = netlist.modules().len();
    let Some(module) = netlist.modules().last() else {
        return format!(in heap; "no module");
    };
    let kind = kind_text(module.kind);
    let name = module.name.as_str();
    let channels = netlist.channels().len();
    let last = last_channel(heap, netlist, sizing)?;
    format!(in heap; "{modules} modules to {kind} {name}, {channels} channels to {last}")
}

// By a match: the words are the test's own, and the library's kind has no text.
fn kind_text(kind: Kind) -> &'static str {
    match kind {
        Kind::Block => "block",
        Kind::RelayStation => "relay",
    }
}

fn last_channel(heap: Global, netlist: &Netlist, sizing: &[u8]) -> Result<String, AllocError> {
    match netlist.channels().iter().zip(sizing).last() {
        Some((channel, size)) => {
            format!(in heap; "{} to {} queue {size}", channel.source, channel.sink)
        }
        None => format!(in heap; "no channel"),
    }
}

// What becomes of a file that is read into this table, and what the table and the netlist hold then.
pub fn table_outcome(heap: Global, file: &[u8], sizing: &mut [u8]) -> anyhow::Result<String> {
    let mut netlist = Netlist::new(heap)?;
    let mut text = String::new(heap);
    if let Err(refused) = read(heap, file, &mut netlist, sizing) {
        let refusal = line(heap, Err(refused))?;
        write!(text, "{refusal}; ")?;
    }
    let table: &[u8] = sizing;
    let modules = netlist.modules().len();
    let plural = if modules == 1 { "" } else { "s" };
    write!(text, "kept {table:?}, {modules} module{plural}")?;
    Ok(text)
}
