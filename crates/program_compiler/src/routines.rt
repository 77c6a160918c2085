//! The routines of records: their fields and defaults.

ghost use Rattle.std.specs.Prelude.{◌≡◌, ◌++◌, ◌∷◌, ◌<◌, ◌≤◌, ℕ, List, [], Some, false, length, slice_get, slice_index_or, IfOk, OnOk};
ghost use Rattle.spec_avro.specs.Node.{Node};
ghost use Rattle.avro_types.specs.Node.{field_of, fields_of};
ghost use Rattle.spec_avro.specs.WellFormed.{FieldsBelow};
ghost use Rattle.spec_avro.specs.Options.{given};
ghost use Rattle.resolver.specs.Partners.{AreRoutes, IsRoute};
ghost use Rattle.spec_avro.specs.Partners.{has_partner as has_partner_of};
ghost use Rattle.spec_avro.specs.declared.place.Route.{Route};
ghost use Rattle.spec_machine.specs.Statements.{Lost};
ghost use Rattle.spec_machine.specs.Skipping.{skip_fields, skip_routine};
ghost use Rattle.spec_machine.specs.Writing.{default_bytes, defaults_code, fields_code, put_in, section, write_routine};
ghost use Rattle.spec_avro.specs.Resolution.{field_lists};
ghost use Rattle.program_compiler.specs.Fields.{read_code};
ghost use Rattle.program_compiler.specs.Known.{AreKnown};
ghost use Rattle.program_ir.specs.Statements.{fields_of_record, statements_in, routine_statements, section_of};

use crate::blank::is_blank;
use crate::known::Known;
use crate::schema_pair::SchemaPair;
use avro_types::{Field, Kind, MOST_FIELDS};
use isa::Instr;
use program_ir::{Constant, Section, Statement, put, put_routine, put_slot};
use resolver::{Route, field_lists, routes};
use std::alloc::{AllocError, Global};

/// Returns for each of `many` reader's fields whether it has a partner.
fn have_partners(alloc: Global, routes: &[Route], many: usize) -> Result<Vec<bool>, AllocError>
    ensures each { IfOk result (λ v. length v.items ≡ many) }
    ensures mark { IfOk result
        (λ v. (j : ℕ) → j < many → slice_index_or v.items j false ≡ has_partner_of j routes.now) }
{
    let mut marks = vec![in alloc; false; many]?;
    for route in routes {
        if let Some(partner) = route.partner {
            if partner.position < marks.len() {
                marks[partner.position] = true;
            }
        }
    }
    Ok(marks)
}

/// Adds the statements of a reader's field, if it has no partner and its written default is not empty.
fn put_default(
    reader: usize,
    position: usize,
    has_partner: bool,
    field: &Field,
    statements: &mut Vec<Statement>,
) -> Result<(), AllocError>
    requires { position < MOST_FIELDS }
    ensures { OnOk result ((W R : List Node) (routes : List Route) → has_partner ≡ has_partner_of position routes
        → slice_get (fields_of_record (slice_get R reader)) position ≡ Some (field_of field.now)
        → statements_in W R statements.new.items ≡ statements_in W R statements.old.items
        ++ put_in position (default_bytes routes position (field_of field.now))) }
{
    if has_partner {
        return Ok(());
    }
    let Some(default) = &field.default else {
        return Ok(());
    };
    if is_blank(default) {
        return Ok(());
    }
    put(statements, Statement::Op(Instr::Slot(position as u32)))?;
    put(
        statements,
        Statement::Put(Constant::Default {
            reader,
            field: position,
        }),
    )
}

impl SchemaPair<'_> {
    /// Adds the statements of the reader's fields without a partner whose written defaults are not empty.
    fn put_defaults(
        &self,
        reader: usize,
        routes: &[Route],
        rs: &[Field],
        statements: &mut Vec<Statement>,
    ) -> Result<(), AllocError>
        requires few { length rs.now ≤ MOST_FIELDS }
        requires fields { fields_of_record (slice_get self.now.reader.now reader) ≡ fields_of rs.now }
        ensures { OnOk result ((W : List Node) → statements_in W self.now.reader.now statements.new.items
            ≡ statements_in W self.now.reader.now statements.old.items
            ++ defaults_code routes.now 0 (fields_of rs.now)) }
    {
        let marks = have_partners(self.alloc, routes, rs.len())?;
        for position in 0..rs.len() {
            put_default(reader, position, marks[position], &rs[position], statements)?;
        }
        Ok(())
    }

    /// Adds the statements that read one of the writer's fields, after its slot.
    fn read_field(
        &self,
        known: &mut Known,
        route: Route,
        statements: &mut Vec<Statement>,
    ) -> Result<(), AllocError>
        requires route { IsRoute (length self.now.writer.now) (length self.now.reader.now) MOST_FIELDS route }
        requires known { AreKnown self.now.writer.now self.now.reader.now known.old }
        ensures statements { OnOk result (statements_in self.now.writer.now self.now.reader.now statements.new.items
            ≡ statements_in self.now.writer.now self.now.reader.now statements.old.items
            ++ read_code self.now.writer.now self.now.reader.now route) }
        ensures known { AreKnown self.now.writer.now self.now.reader.now known.new }
    {
        match route.partner {
            Some(partner) => self.write(known, route.node, partner.node, statements),
            None => self.skip(route.node, statements),
        }
    }

    /// Adds the statements of the writer's fields.
    fn put_fields(
        &self,
        known: &mut Known,
        routes: &[Route],
        statements: &mut Vec<Statement>,
    ) -> Result<(), AllocError>
        requires routes { AreRoutes (length self.now.writer.now) (length self.now.reader.now) MOST_FIELDS routes.now }
        requires known { AreKnown self.now.writer.now self.now.reader.now known.old }
        ensures statements { OnOk result (statements_in self.now.writer.now self.now.reader.now statements.new.items
            ≡ statements_in self.now.writer.now self.now.reader.now statements.old.items
            ++ fields_code self.now.writer.now self.now.reader.now routes.now) }
        ensures known { AreKnown self.now.writer.now self.now.reader.now known.new }
    {
        for field in 0..routes.len() {
            put_slot(statements, routes, field)?;
            self.read_field(known, routes[field], statements)?;
        }
        Ok(())
    }

    /// Adds the statements that skip a record's fields.
    fn skip_fields(
        &self,
        fields: &[Field],
        statements: &mut Vec<Statement>,
    ) -> Result<(), AllocError>
        requires { FieldsBelow (length self.now.writer.now) (fields_of fields.now) }
        ensures { OnOk result (statements_in self.now.writer.now self.now.reader.now statements.new.items
            ≡ statements_in self.now.writer.now self.now.reader.now statements.old.items
            ++ skip_fields self.now.writer.now (fields_of fields.now)) }
    {
        for field in fields {
            self.skip(field.node, statements)?;
        }
        Ok(())
    }

    /// Adds the statements of the routine of two records whose fields are matched by the routes.
    fn put_routes(
        &self,
        known: &mut Known,
        routes: &[Route],
        rn: usize,
        rs: &[Field],
        statements: &mut Vec<Statement>,
    ) -> Result<(), AllocError>
        requires routes { AreRoutes (length self.now.writer.now) (length self.now.reader.now) MOST_FIELDS routes.now }
        requires few { length rs.now ≤ MOST_FIELDS }
        requires fields { fields_of_record (slice_get self.now.reader.now rn) ≡ fields_of rs.now }
        requires known { AreKnown self.now.writer.now self.now.reader.now known.old }
        ensures statements { OnOk result (statements_in self.now.writer.now self.now.reader.now statements.new.items
            ≡ statements_in self.now.writer.now self.now.reader.now statements.old.items
            ++ routine_statements (length rs.now) (fields_code self.now.writer.now self.now.reader.now routes.now)
            (defaults_code routes.now 0 (fields_of rs.now))) }
        ensures known { AreKnown self.now.writer.now self.now.reader.now known.new }
    {
        let mut fields = Vec::new(self.alloc);
        self.put_fields(known, routes, &mut fields)?;
        let mut defaults = Vec::new(self.alloc);
        self.put_defaults(rn, routes, rs, &mut defaults)?;
        put_routine(statements, rs.len() as u32, fields, defaults)
    }

    /// Adds the statements of the routine of two records.
    fn put_routine(
        &self,
        known: &mut Known,
        wn: usize,
        rn: usize,
        statements: &mut Vec<Statement>,
    ) -> Result<(), AllocError>
        requires writer { wn < length self.now.writer.now }
        requires reader { rn < length self.now.reader.now }
        requires known { AreKnown self.now.writer.now self.now.reader.now known.old }
        ensures statements { OnOk result (statements_in self.now.writer.now self.now.reader.now statements.new.items
            ≡ statements_in self.now.writer.now self.now.reader.now statements.old.items
            ++ given (field_lists (slice_get self.now.writer.now wn) (slice_get self.now.reader.now rn)) (Lost ∷ [])
            (λ p. write_routine self.now.writer.now self.now.reader.now p.0 p.1)) }
        ensures known { AreKnown self.now.writer.now self.now.reader.now known.new }
    {
        self.writer.is_well_formed(); // law
        self.reader.is_well_formed(); // law
        let Some((ws, rs)) = field_lists(self.writer, wn, self.reader, rn) else {
            return put(statements, Statement::Lost);
        };
        let routes = routes(self.alloc, ws, rs)?;
        self.put_routes(known, &routes, rn, rs, statements)
    }

    /// Adds the statements of the routine that skips a record.
    fn put_skip_routine(&self, wn: usize, statements: &mut Vec<Statement>) -> Result<(), AllocError>
        requires { wn < length self.now.writer.now }
        ensures { OnOk result (statements_in self.now.writer.now self.now.reader.now statements.new.items
            ≡ statements_in self.now.writer.now self.now.reader.now statements.old.items
            ++ skip_routine self.now.writer.now (slice_get self.now.writer.now wn)) }
    {
        let Kind::Record { fields, .. } = self.writer.kind(wn) else {
            return put(statements, Statement::Lost);
        };
        put(statements, Statement::Op(Instr::Enter))?;
        self.skip_fields(fields, statements)?;
        put(statements, Statement::Op(Instr::Leave))?;
        put(statements, Statement::Op(Instr::Return))
    }

    /// Adds the statements of a section.
    fn put_section(
        &self,
        known: &mut Known,
        part: Section,
        statements: &mut Vec<Statement>,
    ) -> Result<(), AllocError>
        requires known { AreKnown self.now.writer.now self.now.reader.now known.old }
        ensures statements { OnOk result (statements_in self.now.writer.now self.now.reader.now statements.new.items
            ≡ statements_in self.now.writer.now self.now.reader.now statements.old.items
            ++ section self.now.writer.now self.now.reader.now (section_of part)) }
        ensures known { AreKnown self.now.writer.now self.now.reader.now known.new }
    {
        self.writer.is_well_formed(); // law
        self.reader.is_well_formed(); // law
        match part {
            Section::Main => {
                self.write(known, 0, 0, statements)?;
                put(statements, Statement::Op(Instr::Halt))
            }
            Section::Write(wn, rn) => {
                if wn >= self.writer.len() {
                    return put(statements, Statement::Lost);
                }
                if rn >= self.reader.len() {
                    return put(statements, Statement::Lost);
                }
                self.put_routine(known, wn, rn, statements)
            }
            Section::Skip(wn) => {
                if wn >= self.writer.len() {
                    return put(statements, Statement::Lost);
                }
                self.put_skip_routine(wn, statements)
            }
        }
    }

    /// Returns the statements of a section.
    pub(crate) fn section(
        &self,
        known: &mut Known,
        part: Section,
    ) -> Result<Vec<Statement>, AllocError>
        requires { AreKnown self.now.writer.now self.now.reader.now known.old }
        ensures statements { IfOk result
            (λ v. statements_in self.now.writer.now self.now.reader.now v.items
            ≡ section self.now.writer.now self.now.reader.now (section_of part)) }
        ensures known { AreKnown self.now.writer.now self.now.reader.now known.new }
    {
        let mut statements = Vec::new(self.alloc);
        self.put_section(known, part, &mut statements)?;
        Ok(statements)
    }
}
