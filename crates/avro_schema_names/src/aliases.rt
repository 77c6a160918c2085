//! The aliases that an attribute lists.

ghost use Rattle.std.specs.Prelude.{◌≡◌, IfOk, None, codes, map, string_bytes};
ghost use Rattle.serde_json.specs.Find.{get};
ghost use Rattle.serde_json.specs.View.{view};
ghost use Rattle.std.specs.List.{list_all};
ghost use Rattle.spec_avro.specs.FullNames.{is_full_name};
ghost use Rattle.spec_avro.specs.Node.{names_of};
ghost use Rattle.spec_schema.specs.Aliases.{alias_texts, field_aliases, new_names, type_aliases};
ghost use Rattle.avro_schema_names.specs.Draft.{data_at};
ghost use Rattle.avro_schema_names.specs.Fault.{Tells};
ghost use Rattle.spec_schema.specs.Head.{defined_at, heads_of};
ghost use Rattle.avro_schema_names.specs.Index.{IsNamespaceOf, IsNumbered, text_of_namespace};

use crate::names::{NewName, is_full_name, new_name};
use crate::type_attributes::{are_names, texts_of};
use crate::{Drafts, Namespace};
use avro_types::{Aliases, Name};
use serde_json::Value;
use spec_schema::SchemaError;
use std::alloc::Global;

/// Returns the texts that `aliases` lists, or none where the attribute is missing; `Unknown` where it is no list of
/// texts.
fn alias_texts(alloc: Global, value: Option<&Value>) -> Result<Vec<String>, SchemaError>
    ensures { Tells (λ v. map string_bytes v.items) result (alias_texts (data_at value.entry)) }
{
    match value {
        Some(_) => texts_of(alloc, value),
        None => Ok(Vec::new(alloc)),
    }
}

/// Returns whether each text is a full name by the rule.
fn are_full_names(texts: &[String]) -> bool
    ensures { result ≡ list_all (λ s. is_full_name (string_bytes s)) texts.now }
{
    texts.iter().all(|text| is_full_name(text))
}

/// Returns the aliases of a type, as full names.
#[tactic(auto, unfolding(spec_schema::specs::Aliases::type_aliases))]
fn type_aliases(alloc: Global, name: &Name, value: Option<&Value>) -> Result<Aliases, SchemaError>
    ensures { Tells (λ a. a) result (type_aliases name.now (data_at value.entry)) }
{
    let texts = alias_texts(alloc, value)?;
    let namespace = name.shared_namespace()?;
    if !are_full_names(&texts) {
        return Err(SchemaError::BadName);
    }
    Ok(Aliases::of_texts(alloc, namespace, texts)?)
}

/// Returns the aliases of a field. `Unknown` where the attribute is no list of texts, `BadName` where a text is no
/// name.
#[tactic(auto, using(crate::proofs::Texts::all_names), unfolding(spec_schema::specs::Aliases::field_aliases))]
pub fn field_aliases(alloc: Global, value: Option<&Value>) -> Result<Vec<String>, SchemaError>
    ensures { Tells (λ v. map string_bytes v.items) result (field_aliases (data_at value.entry)) }
{
    let texts = alias_texts(alloc, value)?;
    if !are_names(&texts) {
        return Err(SchemaError::BadName);
    }
    Ok(texts)
}

/// The new name of a type with its aliases, and the number of its namespace where that has names already.
#[derive(Drop)]
pub struct NewNames {
    pub name: Name,
    pub aliases: Aliases,
    pub number: Option<usize>,
}

/// Returns the new name that the attributes of a type define, and its aliases.
///
/// Errors of the name (`new_name`) come before those of the aliases: `Unknown` where they are no list of texts,
/// `BadName` where one of them is no full name.
#[tactic(auto, unfolding(spec_schema::specs::Aliases::new_names))]
pub fn new_names(
    alloc: Global,
    value: &Value,
    enclosing: &Namespace,
    drafts: &Drafts,
) -> Result<NewNames, SchemaError>
    requires { IsNamespaceOf enclosing.now drafts.now }
    ensures numbered { IfOk result (λ n. IsNumbered n.name n.number drafts.now) }
    ensures names { Tells (λ n. names_of n.name n.aliases) result
        (new_names (get (codes "name") (view value.now)) (get (codes "namespace") (view value.now))
        (get (codes "aliases") (view value.now)) (text_of_namespace enclosing.now) (heads_of drafts.now)) }
    ensures new { IfOk result (λ n. defined_at n.name (heads_of drafts.now) ≡ None) }
{
    let NewName { name, number } = new_name(
        alloc,
        value.get("name"),
        value.get("namespace"),
        enclosing,
        drafts,
    )?;
    let aliases = type_aliases(alloc, &name, value.get("aliases"))?;
    Ok(NewNames {
        name,
        aliases,
        number,
    })
}
