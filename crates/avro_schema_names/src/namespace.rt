//! Namespaces, under the numbers by which their names are kept.

ghost use Rattle.std.specs.Prelude.{◌≡◌, [], IfOk, true};
ghost use Rattle.std.specs.Arc.{arc_str_bytes};
ghost use Rattle.spec_avro.specs.FullNames.{is_namespace, namespace_of};

use avro_types::Name;
use std::alloc::{AllocError, Global};
use std::sync::ArcStr;

/// A namespace, under the number by which its names are kept.
#[derive(Drop)]
pub struct Namespace {
    pub text: ArcStr,
    pub number: usize,
    ghost valid: { is_namespace (arc_str_bytes text) ≡ true },
}

impl Namespace {
    /// Returns the null namespace, whose number is 0.
    pub fn null(alloc: Global) -> Result<Namespace, AllocError>
        ensures text { IfOk result (λ s. arc_str_bytes s.text ≡ []) }
        ensures number { IfOk result (λ s. s.number ≡ 0) }
    {
        Ok(Namespace {
            text: ArcStr::from_str(alloc, "")?,
            number: 0,
        })
    }

    /// Returns the namespace of a name, under a number.
    pub fn of_name(name: &Name, number: usize) -> Result<Namespace, AllocError>
        ensures text { IfOk result (λ s. arc_str_bytes s.text ≡ namespace_of name.now) }
        ensures number { IfOk result (λ s. s.number ≡ number) }
    {
        Ok(Namespace {
            text: name.shared_namespace()?,
            number,
        })
    }
}
