//! The aliases of a type, found by their full names.

ghost use Rattle.std.specs.Prelude.{◌≡◌, ◌==◌, ◌&&◌, ◌||◌, IfOk, OnOk, false, ℕ, List, length, map, option_map, slice_get, string_bytes};
ghost use Rattle.std.specs.Arc.{arc_str_bytes};
ghost use Rattle.std.specs.BTreeSet.{contains_text};
ghost use Rattle.std.specs.Str.{bytes_eq};
ghost use Rattle.spec_avro.specs.Aliases.{full_names};
ghost use Rattle.avro_types.specs.Aliases.{is_found, stands_under};
ghost use Rattle.spec_avro.specs.FullNames.{full_name, has_dot, inside, unqualified};
ghost use Rattle.spec_avro.specs.Symbols.{is_used};

use crate::name::Name;
use std::alloc::{AllocError, Global};
use std::collections::{BTreeMap, BTreeSet};
use std::marker::Model;
use std::sync::ArcStr;

/// The aliases of a record, an enum or a fixed, each of which is found by its full name (Avro 1.11, "Aliases"). Callers
/// see them as full names, in their order.
///
/// One that is written without a dot is in the namespace of the type, whose text it shares.
#[derive(Debug, Drop)]
pub struct Aliases {
    namespace: ArcStr,
    texts: Vec<String>,
    /// Those without a dot.
    relative: BTreeSet<String>,
    /// The last parts of the others, under their namespaces.
    qualified: BTreeMap<String, BTreeSet<String>>,
}

impl Model for Aliases {
    ghost use Rattle.std.specs.Prelude.{false, ℕ, List, map, string_bytes};
    ghost use Rattle.std.specs.Arc.{arc_str_bytes};
    ghost use Rattle.avro_types.specs.Aliases.{AreFound};
    ghost use Rattle.spec_avro.specs.Aliases.{full_names};

    ghost Value = { List (List ℕ) };

    ghost view = { λ a. full_names (arc_str_bytes a.namespace) (map string_bytes a.texts.items) };

    ghost invariant = { λ a. AreFound (arc_str_bytes a.namespace) a.texts.items a.relative a.qualified };
}

/// Adds a last part under its namespace.
fn put_qualified(
    alloc: Global,
    qualified: &mut BTreeMap<String, BTreeSet<String>>,
    namespace: &str,
    last: &str,
) -> Result<(), AllocError>
    ensures { (other another : List ℕ) → OnOk result (stands_under qualified.new other another
        ≡ ((bytes_eq namespace.now other && bytes_eq last.now another) || stands_under qualified.old other another)) }
{
    let mut lasts = match qualified.remove(namespace) {
        Some(lasts) => lasts,
        None => BTreeSet::new(alloc),
    };
    lasts.insert(String::from_str(alloc, last)?)?;
    qualified.insert(String::from_str(alloc, namespace)?, lasts)?;
    Ok(())
}

/// Adds a text to where it is found: to the relative ones where it has no dot, and else under its namespace. A text
/// that begins with its only dot is no name, and is found nowhere.
fn put(
    alloc: Global,
    relative: &mut BTreeSet<String>,
    qualified: &mut BTreeMap<String, BTreeSet<String>>,
    text: &str,
) -> Result<(), AllocError>
    ensures { (own namespace last : List ℕ) → has_dot last ≡ false → OnOk result
        (is_found own relative.new qualified.new namespace last
        ≡ (is_found own relative.old qualified.old namespace last
        || bytes_eq (full_name own text.now) (inside namespace last))) }
{
    let Some((namespace, last)) = text.rsplit_once('.') else {
        relative.insert(String::from_str(alloc, text)?)?;
        return Ok(());
    };
    if namespace.is_empty() {
        return Ok(());
    }
    put_qualified(alloc, qualified, namespace, last)?;
    Ok(())
}

/// Returns whether a namespace is the type's own, and a last part is a relative alias.
fn is_relative(own: &ArcStr, relative: &BTreeSet<String>, namespace: &str, last: &str) -> bool
    ensures { result ≡ (bytes_eq namespace.now (arc_str_bytes own.now) && contains_text relative.now last.now) }
{
    relative.contains(last) && namespace == own.as_str()
}

/// Returns whether a last part is among those under a namespace.
fn stands_under(qualified: &BTreeMap<String, BTreeSet<String>>, namespace: &str, last: &str) -> bool
    ensures { result ≡ stands_under qualified.now namespace.now last.now }
{
    match qualified.get(namespace) {
        Some(lasts) => lasts.contains(last),
        None => false,
    }
}

/// Returns what follows the last dot of a text, or the whole text where it has none.
fn last_of(text: &str) -> &str
    ensures { (own : List ℕ) → result.now ≡ unqualified (full_name own text.now) }
{
    match text.rsplit_once('.') {
        Some((_, last)) => last,
        None => text,
    }
}

impl Aliases {
    /// Returns texts as the aliases of a type in a namespace: a text without a dot is a name in that namespace, any
    /// other is a full name itself.
    pub fn of_texts(
        alloc: Global,
        namespace: ArcStr,
        texts: Vec<String>,
    ) -> Result<Aliases, AllocError>
        ensures { IfOk result (λ aliases.
            aliases ≡ full_names (arc_str_bytes namespace) (map string_bytes texts.items)) }
    {
        let mut relative = BTreeSet::new(alloc);
        let mut qualified = BTreeMap::new(alloc);
        for text in &texts {
            put(alloc, &mut relative, &mut qualified, text)?;
        }
        Ok(Aliases {
            namespace,
            texts,
            relative,
            qualified,
        })
    }

    /// Returns the number of aliases.
    pub fn len(&self) -> usize
        ensures { result ≡ length self.now }
    {
        self.texts.len()
    }

    /// Returns whether there are none.
    pub fn is_empty(&self) -> bool
        ensures { result ≡ (length self.now == 0) }
    {
        self.texts.is_empty()
    }

    /// Returns the unqualified name of the alias at an index: what follows its last dot. `None` where there is no such
    /// alias.
    pub fn last(&self, position: usize) -> Option<&str>
        ensures { option_map (λ last. last.now) result ≡ option_map unqualified (slice_get self.now position) }
    {
        match self.texts.get(position) {
            Some(text) => Some(last_of(text)),
            None => None,
        }
    }

    /// Returns whether a full name is one of them.
    pub fn contains(&self, name: &Name) -> bool
        ensures { result ≡ is_used name.now self.now }
    {
        if self.texts.is_empty() {
            return false;
        }
        name.has_two_parts(); // law
        let (namespace, last) = (name.namespace(), name.last());
        is_relative(&self.namespace, &self.relative, namespace, last)
            || stands_under(&self.qualified, namespace, last)
    }
}
