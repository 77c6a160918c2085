//! The sections that statements call, each once.

ghost use Rattle.std.specs.Prelude.{◌≡◌, ◌++◌, ◌∷◌, List, [], None, Some, option_map, slice_get, IfOk, OnOk};
ghost use Rattle.spec_avro.specs.Node.{Node};
ghost use Rattle.spec_machine.specs.Statements.{Main, Skip, Write};
ghost use Rattle.spec_machine.specs.Numbering.{adding, calls_of, named_in, same_section};
ghost use Rattle.program_ir.specs.Statements.{statement_of, statements_in, section_of};
ghost use Rattle.program_ir.specs.Sections.{place};

use crate::statements::{Section, Statement};
use std::alloc::{AllocError, Global};
use std::collections::BTreeMap;
use std::marker::Model;

/// Sections in the order in which they are called first, each once. Callers see them as a list.
#[derive(Drop)]
pub struct Sections {
    list: Vec<Section>,
    writes: BTreeMap<(usize, usize), usize>,
    skips: BTreeMap<usize, usize>,
}

impl Model for Sections {
    ghost use Rattle.std.specs.Prelude.{List};
    ghost use Rattle.spec_machine.specs.Statements.{Section};
    ghost use Rattle.program_ir.specs.Sections.{AreNumbered, sections_in};

    ghost Value = { List Section };

    ghost view = { λ s. sections_in s.list.items };

    ghost invariant = { AreNumbered };
}

impl Sections {
    /// Returns a list of the main section alone.
    pub fn new(alloc: Global) -> Result<Sections, AllocError>
        ensures { IfOk result (λ s. s ≡ Main ∷ []) }
    {
        let mut list = Vec::new(alloc);
        list.push(Section::Main)?;
        Ok(Sections {
            list,
            writes: BTreeMap::new(alloc),
            skips: BTreeMap::new(alloc),
        })
    }

    /// Returns the section at an index; `None` where there is none.
    pub fn get(&self, number: usize) -> Option<Section>
        ensures { option_map section_of result ≡ slice_get self.now number }
    {
        self.list.get(number).copied()
    }

    /// Returns the index of a section; `None` where it is none of them.
    pub fn number_of(&self, section: Section) -> Option<usize>
        ensures number { result ≡ place (section_of section) self.now }
        ensures main { place Main self.now ≡ Some 0 }
    {
        match section {
            Section::Main => Some(0),
            Section::Write(wn, rn) => self.writes.get(&(wn, rn)).copied(),
            Section::Skip(wn) => self.skips.get(&wn).copied(),
        }
    }

    /// Appends a routine that is none of them.
    fn add_write(&mut self, wn: usize, rn: usize) -> Result<(), AllocError>
        requires { place (Write wn rn) self.old ≡ None }
        ensures { OnOk result (self.new ≡ self.old ++ Write wn rn ∷ []) }
    {
        let number = self.list.len();
        self.list.try_reserve(1)?;
        self.writes.insert((wn, rn), number)?;
        self.list.push(Section::Write(wn, rn))?;
        Ok(())
    }

    /// Appends a routine that skips and is none of them.
    fn add_skip(&mut self, wn: usize) -> Result<(), AllocError>
        requires { place (Skip wn) self.old ≡ None }
        ensures { OnOk result (self.new ≡ self.old ++ Skip wn ∷ []) }
    {
        let number = self.list.len();
        self.list.try_reserve(1)?;
        self.skips.insert(wn, number)?;
        self.list.push(Section::Skip(wn))?;
        Ok(())
    }

    /// Appends a section, if it is none of them.
    pub fn add(&mut self, section: Section) -> Result<(), AllocError>
        ensures { OnOk result (self.new ≡ adding same_section self.old (section_of section ∷ [])) }
    {
        if self.number_of(section).is_some() {
            return Ok(());
        }
        match section {
            Section::Main => Ok(()),
            Section::Write(wn, rn) => self.add_write(wn, rn),
            Section::Skip(wn) => self.add_skip(wn),
        }
    }
}

/// Appends the section that a statement calls, if it calls one that is none of them.
fn note_call(sections: &mut Sections, statement: &Statement) -> Result<(), AllocError>
    ensures { OnOk result
        ((W R : List Node) → sections.new
        ≡ adding same_section sections.old (calls_of (statement_of W R statement.now))) }
{
    match statement {
        Statement::Call(section) => sections.add(*section),
        _ => Ok(()),
    }
}

/// Appends the sections that statements call, each once.
pub fn note_calls(sections: &mut Sections, statements: &[Statement]) -> Result<(), AllocError>
    ensures { OnOk result ((W R : List Node) → sections.new
        ≡ adding same_section sections.old (named_in calls_of (statements_in W R statements.now))) }
{
    for statement in statements {
        note_call(sections, statement)?;
    }
    Ok(())
}
