//! The script so far.

ghost use Rattle.std.specs.Prelude.{◌≡◌, OnOk, OnErr};
ghost use Rattle.qc_script.specs.Grammar.{empty_script};
ghost use Rattle.qc_script.specs.Places.{has_place, with_item, is_at_controls};
ghost use Rattle.qc_script.specs.Ranges.{FitsByte};

use crate::item::Item;
use crate::script::{CommandLine, LinkLines, PhaseLines, Script};
use qc_link::Link;
use qc_list::{List, OutOfMemory};
use qc_msg::{Command, Control};
use std::alloc::Global;
use std::marker::Model;

/// The script so far, to which lines are added at the end.
#[derive(Drop)]
pub(crate) struct Draft {
    links: LinkLines,
    phases: Vec<PhaseLines>,
}

impl Model for Draft {
    ghost use Rattle.qc_script.specs.declared.script.Script.{Script};

    ghost Value = { Script };

    ghost view = { λ d. record { links = d.links; phases = d.phases.items } };
}

impl Draft {
    /// The script without lines.
    pub(crate) fn new(alloc: Global) -> Draft
        ensures { result ≡ empty_script }
    {
        Draft {
            links: List::new(alloc),
            phases: Vec::new(alloc),
        }
    }

    /// The script.
    pub(crate) fn into_script(self) -> Script
        ensures { result ≡ self }
    {
        let Draft { links, phases } = self;
        Script {
            links,
            phases: List::from_vec(phases),
        }
    }

    /// Whether a line may stand behind those so far.
    pub(crate) fn has_place(&self, item: &Item) -> bool
        ensures { result ≡ has_place self.now item.now }
    {
        match item {
            Item::Phase => true,
            Item::Link(_) => self.phases.is_empty(),
            Item::Control(_) => self.is_at_controls(),
            Item::Command(_) | Item::Epoch { .. } => !self.phases.is_empty(),
        }
    }

    /// Whether the last phase has no command yet.
    fn is_at_controls(&self) -> bool
        ensures { result ≡ is_at_controls self.now.phases }
    {
        match self.phases.last() {
            Some(phase) => phase.commands.items().is_empty(),
            None => false,
        }
    }

    /// Adds what a line asks for, which has a place behind the lines so far.
    /// After want of memory nothing is added.
    pub(crate) fn add(&mut self, alloc: Global, item: Item) -> Result<(), OutOfMemory>
        requires { FitsByte item }
        ensures ok { OnOk result (self.new ≡ with_item self.old item) }
        ensures err { OnErr result (self.new ≡ self.old) }
    {
        match item {
            Item::Phase => self.add_phase(alloc),
            Item::Link(link) => self.add_link(link),
            Item::Control(control) => self.add_control(control),
            Item::Command(line) => self.add_command(line),
            Item::Epoch { actor, number } => self.add_command(CommandLine {
                actor,
                command: Command::Epoch {
                    number: number as u8,
                },
            }),
        }
    }

    /// Begins a phase.
    fn add_phase(&mut self, alloc: Global) -> Result<(), OutOfMemory>
        ensures ok { OnOk result (self.new ≡ with_item self.old Item.Phase) }
        ensures err { OnErr result (self.new ≡ self.old) }
    {
        self.phases.push(PhaseLines {
            controls: List::new(alloc),
            commands: List::new(alloc),
        })?;
        Ok(())
    }

    /// Adds a rule of a link.
    fn add_link(&mut self, link: Link) -> Result<(), OutOfMemory>
        ensures ok { OnOk result (self.new ≡ with_item self.old (Item.Link link)) }
        ensures err { OnErr result (self.new ≡ self.old) }
    {
        self.links.push(link)
    }

    /// Adds what the controller does to the last phase.
    fn add_control(&mut self, control: Control) -> Result<(), OutOfMemory>
        ensures ok { OnOk result (self.new ≡ with_item self.old (Item.Control control)) }
        ensures err { OnErr result (self.new ≡ self.old) }
    {
        let Some(phase) = self.phases.last_mut() else {
            return Ok(());
        };
        phase.controls.push(control)?;
        Ok(())
    }

    /// Adds a command to the last phase.
    fn add_command(&mut self, line: CommandLine) -> Result<(), OutOfMemory>
        ensures ok { OnOk result (self.new ≡ with_item self.old (Item.Command line)) }
        ensures err { OnErr result (self.new ≡ self.old) }
    {
        let Some(phase) = self.phases.last_mut() else {
            return Ok(());
        };
        phase.commands.push(line)?;
        Ok(())
    }
}
