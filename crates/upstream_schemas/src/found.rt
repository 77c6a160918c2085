//! What is found of an id of the upstream registry.

ghost use Rattle.std.specs.Prelude.{◌≡◌};

use crate::held::Named;
use crate::upstream::Upstream;
use schema_registry::Receipt;

/// A schema that an id of the upstream registry names: the receipt of the schema, and the note of the naming.
#[derive(Drop)]
pub struct FoundSchema<U: Upstream> {
    pub receipt: Receipt,
    pub named: Named<U>,
}

impl<U: Upstream> FoundSchema<U> {
    /// Returns the schema once more.
    pub fn again(&mut self) -> FoundSchema<U>
        ensures same { self.new ≡ self.old }
        ensures found { result ≡ self.old }
    {
        FoundSchema {
            receipt: self.receipt.again(),
            named: self.named.again(),
        }
    }
}
