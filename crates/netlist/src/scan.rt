ghost use Rattle.std.specs.Prelude.{◌≡◌, ◌<◌, true, false, length, IfOk, OnOk};
ghost use Rattle.netlist.specs.Faults.{contents};
ghost use Rattle.netlist.specs.Scans.{Fair, FairNext, Next, Shorter, Takes, Turns, ahead, at_count, first_in};
ghost use Rattle.netlist.specs.Splits.{SplitsRecord};

use crate::flaw::Flaw;
use crate::netlist::{CHANNELS, MODULES};
use crate::record::Record;
use crate::refusal::Cause;
use crate::splits::{split_channel, split_count, split_module, split_size};

// The section that is being read, with the counts so far that are still needed; at the start not even the first has been read.
#[derive(Clone, Copy)]
pub(crate) enum Section {
    Start,
    Modules { modules: u8 },
    Channels { modules: u8, channels: u8 },
    Sizes,
}

// How far a file has been read.
#[derive(Clone, Copy)]
pub(crate) struct Scan<'f> {
    // The bytes that have not been read.
    rest: &'f [u8],
    section: Section,
    // How many records are left in the section.
    left: u8,
}

impl<'f> Scan<'f> {
    pub(crate) fn new(file: &'f [u8]) -> Scan<'f>
        ensures all { ahead result ≡ contents file.now }
        ensures whole { result.rest.now ≡ file.now }
    {
        Scan {
            rest: file,
            section: Section::Start,
            left: 0,
        }
    }

    // The next record, or none at the end of the file. A flaw leaves the scan before it, so that it comes again.
    pub(crate) fn next(&mut self) -> Result<Option<Record<'f>>, Flaw>
        ensures reads { Next (ahead self.old) result (ahead self.new) }
        ensures fair { FairNext result }
        ensures shorter { Shorter self.old.rest.now result self.new.rest.now }
    {
        while self.at_count() {
            let Some(turned) = self.turned()? else {
                return Ok(None);
            };
            *self = turned;
        }
        let record = self.item()?;
        Ok(Some(record))
    }

    // Whether a count is due, and no record: at the start, and where the section has none left.
    fn at_count(&self) -> bool
        ensures { result ≡ at_count self.now }
    {
        matches!(self.section, Section::Start) || self.left == 0
    }

    // The scan at the next section, none at the end of the file.
    fn turned(&self) -> Result<Option<Scan<'f>>, Flaw>
        requires { at_count self.now ≡ true }
        ensures { Turns self.now result }
    {
        match self.section {
            Section::Start => {
                let (modules, rest) = split_count(
                    self.rest,
                    |n| (1..=MODULES).contains(&(n as usize)),
                )?;
                Ok(Some(Scan {
                    rest,
                    section: Section::Modules { modules },
                    left: modules,
                }))
            }
            Section::Modules { modules } => {
                let (channels, rest) = split_count(self.rest, |n| n as usize <= CHANNELS)?;
                Ok(Some(Scan {
                    rest,
                    section: Section::Channels { modules, channels },
                    left: channels,
                }))
            }
            Section::Channels { channels, .. } => {
                let (left, rest) = split_count(self.rest, |n| n == 0 || n == channels)?;
                Ok(Some(Scan {
                    rest,
                    section: Section::Sizes,
                    left,
                }))
            }
            Section::Sizes if self.rest.is_empty() => Ok(None),
            Section::Sizes => Err(Flaw::at(Cause::ByteAfterEnd, self.rest)),
        }
    }

    // The next record of a section that has one left.
    fn item(&mut self) -> Result<Record<'f>, Flaw>
        requires { at_count self.old ≡ false }
        ensures takes { Takes (ahead self.old) result (ahead self.new) }
        ensures fair { IfOk result Fair }
        ensures shorter { OnOk result (length self.new.rest.now < length self.old.rest.now) }
    {
        let (record, rest) = self.first()?;
        self.rest = rest;
        self.left -= 1;
        Ok(record)
    }

    // That record, and the bytes after it.
    fn first(&self) -> Result<(Record<'f>, &'f [u8]), Flaw>
        requires { at_count self.now ≡ false }
        ensures { SplitsRecord (first_in self.now.section self.now.rest.now) result }
    {
        match self.section {
            Section::Start => unreachable!(),
            Section::Modules { .. } => split_module(self.rest),
            Section::Channels { modules, .. } => split_channel(self.rest, modules),
            Section::Sizes => split_size(self.rest),
        }
    }
}
