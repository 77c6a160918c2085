//! Full names.

ghost use Rattle.std.specs.Prelude.{◌≡◌, IfOk, string_bytes, true};
ghost use Rattle.std.specs.Arc.{arc_str_bytes};
ghost use Rattle.spec_avro.specs.FullNames.{AreParts, inside, is_namespace, namespace_of, unqualified};

use std::alloc::AllocError;
use std::marker::Model;
use std::sync::ArcStr;

/// The full name of a record, an enum or a fixed (Avro 1.11, "Names"). Callers see it as its text.
///
/// Names in one namespace share its text, so that a name costs no more than its last part.
#[derive(Debug, Drop)]
pub struct Name {
    namespace: ArcStr,
    last: String,
}

impl Model for Name {
    ghost use Rattle.std.specs.Prelude.{ℕ, List, string_bytes};
    ghost use Rattle.std.specs.Arc.{arc_str_bytes};
    ghost use Rattle.spec_avro.specs.FullNames.{AreParts, inside};

    ghost Value = { List ℕ };

    ghost view = { λ n. inside (arc_str_bytes n.namespace) (string_bytes n.last) };

    ghost invariant = { λ n. AreParts (arc_str_bytes n.namespace) (string_bytes n.last) };
}

impl Name {
    /// Returns the name of a last part in a namespace.
    pub fn new(namespace: ArcStr, last: String) -> Name
        requires { AreParts (arc_str_bytes namespace) (string_bytes last) }
        ensures { result ≡ inside (arc_str_bytes namespace) (string_bytes last) }
    {
        Name { namespace, last }
    }

    /// Returns a copy of the name, which shares the namespace.
    pub fn copy(&self) -> Result<Name, AllocError>
        ensures { IfOk result (λ name. name ≡ self.now) }
    {
        let namespace = self.namespace.clone()?;
        let last = self.last.clone()?;
        Ok(Name { namespace, last })
    }

    /// Returns its namespace, shared with the name.
    pub fn shared_namespace(&self) -> Result<ArcStr, AllocError>
        ensures text { IfOk result (λ namespace. arc_str_bytes namespace ≡ namespace_of self.now) }
        ensures by_rule { IfOk result (λ namespace. is_namespace (arc_str_bytes namespace) ≡ true) }
    {
        Ok(self.namespace.clone()?)
    }

    /// The law that it is a namespace and a last part, each by its rule.
    pub fn has_two_parts(&self)
        ensures parts { AreParts (namespace_of self.now) (unqualified self.now) }
        ensures joined { inside (namespace_of self.now) (unqualified self.now) ≡ self.now }
    {
        let _opened = &self.last; // read for the proof
    }

    /// Returns its namespace: what is before the last dot, or the empty text for the null namespace.
    pub fn namespace(&self) -> &str
        ensures { result.now ≡ namespace_of self.now }
    {
        self.namespace.as_str()
    }

    /// Returns the unqualified name: what follows the last dot.
    pub fn last(&self) -> &str
        ensures { result.now ≡ unqualified self.now }
    {
        self.last.as_str()
    }
}
