//! The rule for names, and the names that attributes define.

ghost use Rattle.std.specs.Prelude.{◌≡◌, ◌≢◌, ◌&&◌, Err, IfOk, None, false, not, option_map, option_and_then, string_bytes};
ghost use Rattle.std.specs.List.{list_all};
ghost use Rattle.serde_json.specs.Find.{as_str};
ghost use Rattle.avro_schema_names.specs.Draft.{data_at, field_names};
ghost use Rattle.avro_schema_names.specs.Fault.{Tells};
ghost use Rattle.spec_schema.specs.declared.schema_error.SchemaError.TheVariants.{NoMemory};
ghost use Rattle.spec_avro.specs.FullNames.{full_name, has_dot, inside, is_full_name, is_letter, is_letter_or_digit, is_name, is_namespace};
ghost use Rattle.spec_schema.specs.Head.{defined_at, heads_of};
ghost use Rattle.avro_schema_names.specs.Index.{IsNamespaceOf, IsNumbered, text_of_namespace};
ghost use Rattle.spec_schema.specs.Names.{field_name, if_new, new_name, text_of};
ghost use Rattle.spec_schema.specs.Word.{is_primitive, word_of};

use crate::word::Word;
use crate::{Drafts, FieldList, Namespace};
use avro_types::Name;
use serde_json::Value;
use spec_schema::SchemaError;
use std::alloc::Global;
use std::sync::ArcStr;

fn is_letter(c: u8) -> bool
    ensures { result ≡ is_letter c }
{
    matches!(c, b'A'..=b'Z' | b'a'..=b'z' | b'_')
}

fn is_letter_or_digit(c: u8) -> bool
    ensures { result ≡ is_letter_or_digit c }
{
    is_letter(c) || matches!(c, b'0'..=b'9')
}

fn are_letters_or_digits(text: &[u8]) -> bool
    ensures { result ≡ list_all is_letter_or_digit text.now }
{
    text.iter().all(|c| is_letter_or_digit(*c))
}

/// Returns whether the bytes of a text are a name by the rule.
pub fn is_name(text: &[u8]) -> bool
    ensures { result ≡ is_name text.now }
{
    match text {
        [first, rest @ ..] => is_letter(*first) && are_letters_or_digits(rest),
        [] => false,
    }
}

/// Returns whether a text is names joined by dots.
pub fn is_full_name(text: &str) -> bool
    ensures { result ≡ is_full_name text.now }
{
    let mut rest = text;
    while let Some((part, more)) = rest.split_once('.') {
        if !is_name(part.as_bytes()) {
            return false;
        }
        rest = more;
    }
    is_name(rest.as_bytes())
}

/// Returns whether a text is the null namespace, or names joined by dots.
pub fn is_namespace(text: &str) -> bool
    ensures { result ≡ is_namespace text.now }
{
    text.is_empty() || is_full_name(text)
}

/// Returns whether a text may be the last part of a type's name.
fn is_last_part(text: &str) -> bool
    ensures { result ≡ (is_name text.now && not (is_primitive (word_of text.now))) }
{
    is_name(text.as_bytes()) && !Word::of_text(text).is_primitive()
}

/// Returns the text at an attribute; `None` where the attribute is missing or no text.
pub fn text_at(value: Option<&Value>) -> Option<&str>
    ensures { option_map (λ s. s.now) result ≡ option_and_then as_str (data_at value.entry) }
{
    value?.as_str()
}

/// Returns the text at an attribute, or `Unknown` where the attribute is missing or no text.
pub fn text_of(value: Option<&Value>) -> Result<&str, SchemaError>
    ensures told { Tells (λ s. s.now) result (text_of (data_at value.entry)) }
    ensures room { result ≢ Err NoMemory }
{
    match text_at(value) {
        Some(text) => Ok(text),
        None => Err(SchemaError::Unknown),
    }
}

/// A new name, and the number of its namespace where that has names already.
#[derive(Drop)]
pub struct NewName {
    pub name: Name,
    pub number: Option<usize>,
}

/// Returns the new name with a last part in the enclosing namespace; `BadName` where it is against the rule,
/// `Redefined` where the full name has a node.
#[tactic(auto, unfolding(spec_schema::specs::Names::if_new))]
fn inherited_name(
    alloc: Global,
    last: &str,
    enclosing: &Namespace,
    drafts: &Drafts,
) -> Result<NewName, SchemaError>
    requires known { IsNamespaceOf enclosing.now drafts.now }
    requires undotted { has_dot last.now ≡ false }
    ensures numbered { IfOk result (λ n. IsNumbered n.name n.number drafts.now) }
    ensures name { Tells (λ n. n.name) result (if_new (inside (text_of_namespace enclosing.now) last.now)
        (heads_of drafts.now)) }
    ensures new { IfOk result (λ n. defined_at (n.name) (heads_of drafts.now) ≡ None) }
{
    if !is_last_part(last) {
        return Err(SchemaError::BadName);
    }
    if drafts.defined_in(enclosing, last).is_some() {
        return Err(SchemaError::Redefined);
    }
    let namespace = enclosing.text.clone()?;
    let name = Name::new(namespace, String::from_str(alloc, last)?);
    Ok(NewName {
        name,
        number: Some(enclosing.number),
    })
}

/// Returns the new name with a last part in a namespace of its own; `BadName` where it is against the rule,
/// `Redefined` where the full name has a node.
#[tactic(auto, unfolding(spec_schema::specs::Names::if_new))]
fn own_name(
    alloc: Global,
    namespace: &str,
    last: &str,
    drafts: &Drafts,
) -> Result<NewName, SchemaError>
    requires undotted { has_dot last.now ≡ false }
    ensures numbered { IfOk result (λ n. IsNumbered n.name n.number drafts.now) }
    ensures name { Tells (λ n. n.name) result (if_new (inside namespace.now last.now) (heads_of drafts.now)) }
    ensures new { IfOk result (λ n. defined_at (n.name) (heads_of drafts.now) ≡ None) }
{
    if !is_namespace(namespace) || !is_last_part(last) {
        return Err(SchemaError::BadName);
    }
    if drafts.defined_by(namespace, last).is_some() {
        return Err(SchemaError::Redefined);
    }
    let number = drafts.number_of(namespace);
    let namespace = ArcStr::from_str(alloc, namespace)?;
    let name = Name::new(namespace, String::from_str(alloc, last)?);
    Ok(NewName { name, number })
}

/// Returns the full name that the attributes of a type define.
///
/// `Unknown` where `name` is no text, or `namespace`, where that counts; `BadName` where the full name is against the
/// rule, or a primitive type's; `Redefined` where it has a node.
#[tactic(auto, unfolding(spec_schema::specs::Names::new_name))]
pub fn new_name(
    alloc: Global,
    name: Option<&Value>,
    namespace: Option<&Value>,
    enclosing: &Namespace,
    drafts: &Drafts,
) -> Result<NewName, SchemaError>
    requires { IsNamespaceOf enclosing.now drafts.now }
    ensures numbered { IfOk result (λ n. IsNumbered n.name n.number drafts.now) }
    ensures name { Tells (λ n. n.name) result (new_name (data_at name.entry) (data_at namespace.entry)
        (text_of_namespace enclosing.now) (heads_of drafts.now)) }
    ensures new { IfOk result (λ n. defined_at (n.name) (heads_of drafts.now) ≡ None) }
{
    let name = text_of(name)?;
    match name.rsplit_once('.') {
        Some((own, last)) => {
            if own.is_empty() {
                return Err(SchemaError::BadName);
            }
            own_name(alloc, own, last, drafts)
        }
        None => match namespace {
            Some(_) => own_name(alloc, text_of(namespace)?, name, drafts),
            None => inherited_name(alloc, name, enclosing, drafts),
        },
    }
}

/// Returns the node of the full name that a text means in a namespace; `None` where no node has it.
pub fn defined_node(text: &str, enclosing: &Namespace, drafts: &Drafts) -> Option<usize>
    requires { IsNamespaceOf enclosing.now drafts.now }
    ensures { result ≡ defined_at (full_name (text_of_namespace enclosing.now) text.now) (heads_of drafts.now) }
{
    match text.rsplit_once('.') {
        Some((namespace, last)) => {
            if namespace.is_empty() {
                drafts.names_are_apart(); // law
                return None;
            }
            drafts.defined_by(namespace, last)
        }
        None => drafts.defined_in(enclosing, text),
    }
}

/// Returns the name of a field that comes after others. `Unknown` where it is no text, `BadName` where it is no name
/// or another field's.
#[tactic(auto, unfolding(spec_schema::specs::Names::field_name))]
pub fn field_name(
    alloc: Global,
    name: Option<&Value>,
    before: &FieldList,
) -> Result<String, SchemaError>
    ensures { Tells string_bytes result (field_name (data_at name.entry) (field_names before.now)) }
{
    let name = text_of(name)?;
    if !is_name(name.as_bytes()) || before.is_used(name) {
        return Err(SchemaError::BadName);
    }
    Ok(String::from_str(alloc, name)?)
}
