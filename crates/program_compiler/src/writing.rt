//! The statements that write a pair of nodes.

ghost use Rattle.std.specs.Prelude.{◌≡◌, ◌++◌, ◌∷◌, ◌<◌, [], List, if◌then◌else◌, length, map, slice_get, IfOk, IfSome, OnOk};
ghost use Rattle.std.specs.List.{AllByRecursion};
ghost use Rattle.spec_avro.specs.Node.{Node};
ghost use Rattle.spec_avro.specs.declared.mismatch.MismatchKind.TheVariants as kinds;
ghost use Rattle.spec_machine.specs.declared.instr.Instr.TheVariants as op;
ghost use Rattle.resolver.specs.Matching.{ArePair};
ghost use Rattle.spec_avro.specs.Matching.{place};
ghost use Rattle.spec_avro.specs.Options.{given};
ghost use Rattle.spec_machine.specs.Statements.{BytesText, Lost, Op, looped, miss};
ghost use Rattle.spec_machine.specs.Writing.{X, is_text, placed_node, record_code, straight_node, write_within};
ghost use Rattle.spec_avro.specs.Resolution.{field_lists, lacking};
ghost use Rattle.program_compiler.specs.Known.{AreKnown};
ghost use Rattle.program_ir.specs.Statements.{statements_in, parts_in};

use crate::known::Known;
use crate::schema_pair::SchemaPair;
use avro_bytes::MismatchKind;
use avro_types::Kind;
use isa::Instr;
use program_ir::{Constant, Go, Statement, miss, put, put_branched, put_loop, put_record};
use resolver::{Destination, both_items, both_values, field_lists};
use std::alloc::AllocError;

impl SchemaPair<'_> {
    /// Adds the statement that writes bytes; they have to be UTF-8 where the reader has a string.
    fn put_bytes(
        &self,
        wn: usize,
        rn: usize,
        statements: &mut Vec<Statement>,
    ) -> Result<(), AllocError>
        requires { rn < length self.now.reader.now }
        ensures { OnOk result
            ((W R : List Node) → statements_in W R statements.new.items ≡ statements_in W R statements.old.items
            ++ (if is_text (slice_get self.now.reader.now rn)
            then BytesText (miss kinds.BytesNotText wn rn) else Op op.Bytes) ∷ []) }
    {
        match self.reader.kind(rn) {
            Kind::Text => put(
                statements,
                Statement::BytesText(miss(MismatchKind::BytesNotText, wn, rn)),
            ),
            _ => put(statements, Statement::Op(Instr::Bytes)),
        }
    }

    /// Adds the statements that write a record: a call, or a miss where a default is missing.
    fn record(
        &self,
        known: &mut Known,
        wn: usize,
        rn: usize,
        statements: &mut Vec<Statement>,
    ) -> Result<(), AllocError>
        requires writer { wn < length self.now.writer.now }
        requires reader { rn < length self.now.reader.now }
        requires known { AreKnown self.now.writer.now self.now.reader.now known.old }
        ensures statements { OnOk result (statements_in self.now.writer.now self.now.reader.now statements.new.items
            ≡ statements_in self.now.writer.now self.now.reader.now statements.old.items
            ++ given (field_lists (slice_get self.now.writer.now wn) (slice_get self.now.reader.now rn)) (Lost ∷ [])
            (λ p. record_code self.now.writer.now self.now.reader.now wn rn (lacking p.0 p.1))) }
        ensures known { AreKnown self.now.writer.now self.now.reader.now known.new }
    {
        if field_lists(self.writer, wn, self.reader, rn).is_none() {
            return put(statements, Statement::Lost);
        }
        let lacking = known.lacking_node(self, wn, rn)?;
        put_record(statements, wn, rn, lacking)?;
        match lacking {
            Some(_) => self.skip(wn, statements),
            None => Ok(()),
        }
    }

    /// Adds the statements that write the items of two arrays.
    #[cycle(write)]
    fn items(
        &self,
        known: &mut Known,
        parts: Option<(usize, usize)>,
        steps: usize,
        statements: &mut Vec<Statement>,
    ) -> Result<(), AllocError>
        requires parts { IfSome parts (ArePair self.now.writer.now self.now.reader.now) }
        requires known { AreKnown self.now.writer.now self.now.reader.now known.old }
        ensures statements { OnOk result (statements_in self.now.writer.now self.now.reader.now statements.new.items
            ≡ statements_in self.now.writer.now self.now.reader.now statements.old.items
            ++ given parts (Lost ∷ [])
            (λ p. Op op.Blocks ∷ looped op.Next (write_within self.now.writer.now self.now.reader.now steps p.0 p.1))) }
        ensures known { AreKnown self.now.writer.now self.now.reader.now known.new }
    {
        let Some((wn, rn)) = parts else {
            return put(statements, Statement::Lost);
        };
        let mut body = Vec::new(self.alloc);
        self.write_within(known, wn, rn, steps, &mut body)?;
        put(statements, Statement::Op(Instr::Blocks))?;
        put_loop(statements, Go::Next, body)
    }

    /// Adds the statements that write the values of two maps, after their keys.
    #[cycle(write)]
    fn values(
        &self,
        known: &mut Known,
        parts: Option<(usize, usize)>,
        steps: usize,
        statements: &mut Vec<Statement>,
    ) -> Result<(), AllocError>
        requires parts { IfSome parts (ArePair self.now.writer.now self.now.reader.now) }
        requires known { AreKnown self.now.writer.now self.now.reader.now known.old }
        ensures statements { OnOk result (statements_in self.now.writer.now self.now.reader.now statements.new.items
            ≡ statements_in self.now.writer.now self.now.reader.now statements.old.items
            ++ given parts (Lost ∷ [])
            (λ p. Op op.Blocks
            ∷ looped op.Next (Op op.Text ∷ write_within self.now.writer.now self.now.reader.now steps p.0 p.1))) }
        ensures known { AreKnown self.now.writer.now self.now.reader.now known.new }
    {
        let Some((wn, rn)) = parts else {
            return put(statements, Statement::Lost);
        };
        let mut body = Vec::new(self.alloc);
        put(&mut body, Statement::Op(Instr::Text))?;
        self.write_within(known, wn, rn, steps, &mut body)?;
        put(statements, Statement::Op(Instr::Blocks))?;
        put_loop(statements, Go::Next, body)
    }

    /// Adds the statements that write nodes that match, neither of them a union.
    #[cycle(write)]
    fn straight(
        &self,
        known: &mut Known,
        wn: usize,
        rn: usize,
        steps: usize,
        statements: &mut Vec<Statement>,
    ) -> Result<(), AllocError>
        requires writer { wn < length self.now.writer.now }
        requires reader { rn < length self.now.reader.now }
        requires known { AreKnown self.now.writer.now self.now.reader.now known.old }
        ensures statements { OnOk result (statements_in self.now.writer.now self.now.reader.now statements.new.items
            ≡ statements_in self.now.writer.now self.now.reader.now statements.old.items
            ++ straight_node self.now.writer.now self.now.reader.now
            (write_within self.now.writer.now self.now.reader.now steps) wn rn
            (slice_get self.now.writer.now wn) (slice_get self.now.reader.now rn)) }
        ensures known { AreKnown self.now.writer.now self.now.reader.now known.new }
    {
        match self.writer.kind(wn) {
            Kind::Null => Ok(()),
            Kind::Boolean => put(statements, Statement::Op(Instr::Bool)),
            Kind::Int => put(statements, Statement::Op(Instr::Int)),
            Kind::Long => put(statements, Statement::Op(Instr::Long)),
            Kind::Bytes => self.put_bytes(wn, rn, statements),
            Kind::Text => put(statements, Statement::Op(Instr::Text)),
            Kind::Fixed { size, .. } => put(statements, Statement::Op(Instr::Fixed(*size as u32))),
            Kind::Enum { .. } => put(
                statements,
                Statement::Enum {
                    writer: wn,
                    reader: rn,
                },
            ),
            Kind::Array(_) => self.items(
                known,
                both_items(self.writer, wn, self.reader, rn),
                steps,
                statements,
            ),
            Kind::Map(_) => self.values(
                known,
                both_values(self.writer, wn, self.reader, rn),
                steps,
                statements,
            ),
            Kind::Union(_) => put(statements, Statement::Lost),
            Kind::Record { .. } => self.record(known, wn, rn, statements),
        }
    }

    /// Adds the statements that write nodes, the writer's no union.
    #[cycle(write)]
    fn placed(
        &self,
        known: &mut Known,
        wn: usize,
        rn: usize,
        steps: usize,
        statements: &mut Vec<Statement>,
    ) -> Result<(), AllocError>
        requires writer { wn < length self.now.writer.now }
        requires reader { rn < length self.now.reader.now }
        requires known { AreKnown self.now.writer.now self.now.reader.now known.old }
        ensures statements { OnOk result (statements_in self.now.writer.now self.now.reader.now statements.new.items
            ≡ statements_in self.now.writer.now self.now.reader.now statements.old.items
            ++ placed_node self.now.writer.now self.now.reader.now
            (write_within self.now.writer.now self.now.reader.now steps) wn rn
            (place self.now.writer.now self.now.reader.now wn rn)) }
        ensures known { AreKnown self.now.writer.now self.now.reader.now known.new }
    {
        match known.place_of(self, wn, rn)? {
            Destination::Straight => self.straight(known, wn, rn, steps, statements),
            Destination::IntoMember { position, node } => {
                put(statements, Statement::Put(Constant::Position(position)))?;
                self.straight(known, wn, node, steps, statements)
            }
            Destination::Nowhere => {
                put(
                    statements,
                    Statement::Miss(miss(MismatchKind::NoBranch, wn, rn)),
                )?;
                self.skip(wn, statements)
            }
            Destination::Unmatched => {
                put(
                    statements,
                    Statement::Miss(miss(MismatchKind::NoMatch, wn, rn)),
                )?;
                self.skip(wn, statements)
            }
        }
    }

    /// Adds the statements that write a pair of nodes, down to `levels` levels of nodes; below them there is no code
    /// (`Lost`). A writer's union is written first, by its branches.
    #[cycle(write)]
    fn write_within(
        &self,
        known: &mut Known,
        wn: usize,
        rn: usize,
        levels: usize,
        statements: &mut Vec<Statement>,
    ) -> Result<(), AllocError>
        requires writer { wn < length self.now.writer.now }
        requires reader { rn < length self.now.reader.now }
        requires known { AreKnown self.now.writer.now self.now.reader.now known.old }
        ensures statements { OnOk result (statements_in self.now.writer.now self.now.reader.now statements.new.items
            ≡ statements_in self.now.writer.now self.now.reader.now statements.old.items
            ++ write_within self.now.writer.now self.now.reader.now levels wn rn) }
        ensures known { AreKnown self.now.writer.now self.now.reader.now known.new }
    {
        if levels == 0 {
            return put(statements, Statement::Lost);
        }
        match self.writer.kind(wn) {
            Kind::Union(members) => {
                let parts = self.write_members(known, members, rn, levels - 1)?;
                put_branched(self.alloc, statements, parts)
            }
            _ => self.placed(known, wn, rn, levels - 1, statements),
        }
    }

    /// Returns the statements that write each of these branches.
    #[cycle(write)]
    fn write_members(
        &self,
        known: &mut Known,
        members: &[usize],
        rn: usize,
        steps: usize,
    ) -> Result<Vec<Vec<Statement>>, AllocError>
        requires members { AllByRecursion (λ m. m < length self.now.writer.now) members.now }
        requires reader { rn < length self.now.reader.now }
        requires known { AreKnown self.now.writer.now self.now.reader.now known.old }
        ensures parts { IfOk result (λ parts. parts_in self.now.writer.now self.now.reader.now parts.items
            ≡ map (λ m. write_within self.now.writer.now self.now.reader.now steps m rn) members.now) }
        ensures known { AreKnown self.now.writer.now self.now.reader.now known.new }
    {
        let mut parts = Vec::new(self.alloc);
        for member in members {
            let mut part = Vec::new(self.alloc);
            self.write_within(known, *member, rn, steps, &mut part)?;
            parts.push(part)?;
        }
        Ok(parts)
    }

    /// Adds the statements that write a pair of nodes.
    pub(crate) fn write(
        &self,
        known: &mut Known,
        writer_node: usize,
        reader_node: usize,
        statements: &mut Vec<Statement>,
    ) -> Result<(), AllocError>
        requires writer { writer_node < length self.now.writer.now }
        requires reader { reader_node < length self.now.reader.now }
        requires known { AreKnown self.now.writer.now self.now.reader.now known.old }
        ensures statements { OnOk result (statements_in self.now.writer.now self.now.reader.now statements.new.items
            ≡ statements_in self.now.writer.now self.now.reader.now statements.old.items
            ++ X self.now.writer.now self.now.reader.now writer_node reader_node) }
        ensures known { AreKnown self.now.writer.now self.now.reader.now known.new }
    {
        self.writer.is_well_formed(); // law
        self.write_within(
            known,
            writer_node,
            reader_node,
            self.writer.len() + 1,
            statements,
        )
    }
}
