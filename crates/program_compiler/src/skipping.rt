//! The statements that skip a node.

ghost use Rattle.std.specs.Prelude.{◌≡◌, ◌++◌, ◌<◌, length, map, IfOk, OnOk};
ghost use Rattle.std.specs.List.{AllByRecursion};
ghost use Rattle.spec_machine.specs.Skipping.{K, skip_within};
ghost use Rattle.program_ir.specs.Statements.{statements_in, parts_in};

use crate::schema_pair::SchemaPair;
use avro_types::Kind;
use isa::Instr;
use program_ir::{Go, Section, Statement, put, put_branched, put_loop};
use std::alloc::AllocError;

impl SchemaPair<'_> {
    /// Adds the statements that skip a node, down to `levels` levels of nodes; below them there is no code (`Lost`).
    #[cycle(skip)]
    #[tactic(auto, unfolding(spec_machine::specs::Skipping::skip_within))]
    fn skip_within(
        &self,
        n: usize,
        levels: usize,
        statements: &mut Vec<Statement>,
    ) -> Result<(), AllocError>
        requires { n < length self.now.writer.now }
        ensures { OnOk result (statements_in self.now.writer.now self.now.reader.now statements.new.items
            ≡ statements_in self.now.writer.now self.now.reader.now statements.old.items
            ++ skip_within self.now.writer.now levels n) }
    {
        if levels == 0 {
            return put(statements, Statement::Lost);
        }
        match self.writer.kind(n) {
            Kind::Null => Ok(()),
            Kind::Boolean => put(statements, Statement::Op(Instr::SkipBool)),
            Kind::Int => put(statements, Statement::Op(Instr::SkipInt)),
            Kind::Long => put(statements, Statement::Op(Instr::SkipLong)),
            Kind::Bytes => put(statements, Statement::Op(Instr::SkipBytes)),
            Kind::Text => put(statements, Statement::Op(Instr::SkipText)),
            Kind::Fixed { size, .. } => put(
                statements,
                Statement::Op(Instr::SkipFixed(*size as u32)),
            ),
            Kind::Enum { symbols, .. } => put(
                statements,
                Statement::Op(Instr::SkipEnum(symbols.len() as u32)),
            ),
            Kind::Array(item) => {
                put(statements, Statement::Op(Instr::SkipBlocks))?;
                let mut body = Vec::new(self.alloc);
                self.skip_within(*item, levels - 1, &mut body)?;
                put_loop(statements, Go::SkipNext, body)
            }
            Kind::Map(value) => {
                put(statements, Statement::Op(Instr::SkipBlocks))?;
                let mut body = Vec::new(self.alloc);
                put(&mut body, Statement::Op(Instr::SkipText))?;
                self.skip_within(*value, levels - 1, &mut body)?;
                put_loop(statements, Go::SkipNext, body)
            }
            Kind::Union(members) => {
                let parts = self.skip_members(members, levels - 1)?;
                put_branched(self.alloc, statements, parts)
            }
            Kind::Record { .. } => put(statements, Statement::Call(Section::Skip(n))),
        }
    }

    /// Returns the statements that skip each of these branches.
    #[cycle(skip)]
    fn skip_members(
        &self,
        members: &[usize],
        levels: usize,
    ) -> Result<Vec<Vec<Statement>>, AllocError>
        requires { AllByRecursion (λ m. m < length self.now.writer.now) members.now }
        ensures { IfOk result (λ parts. parts_in self.now.writer.now self.now.reader.now parts.items
            ≡ map (skip_within self.now.writer.now levels) members.now) }
    {
        let mut parts = Vec::new(self.alloc);
        for member in members {
            let mut part = Vec::new(self.alloc);
            self.skip_within(*member, levels, &mut part)?;
            parts.push(part)?;
        }
        Ok(parts)
    }

    /// Adds the statements that skip a node.
    pub(crate) fn skip(
        &self,
        node: usize,
        statements: &mut Vec<Statement>,
    ) -> Result<(), AllocError>
        requires { node < length self.now.writer.now }
        ensures { OnOk result (statements_in self.now.writer.now self.now.reader.now statements.new.items
            ≡ statements_in self.now.writer.now self.now.reader.now statements.old.items
            ++ K self.now.writer.now node) }
    {
        self.writer.is_well_formed(); // law
        self.skip_within(node, self.writer.len() + 1, statements)
    }
}
