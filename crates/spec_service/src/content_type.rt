//! The types of the content of answers.

/// The types of the content of answers.
#[derive(Clone, Copy, Debug, PartialEq, Eq)]
pub enum ContentType {
    /// JSON, as the schema registry's API has it (Confluent Schema Registry API, "Content Types").
    Json,
    /// A message.
    OctetStream,
}

impl ContentType {
    ghost use Rattle.std.specs.Prelude.{◌≡◌};
    ghost use Rattle.spec_service.specs.ContentType.{type_name};

    /// Returns its name, the value of the field that says so (RFC 9110, section 8.3).
    pub fn name(self) -> &'static str
        ensures { result.now ≡ type_name self }
    {
        match self {
            ContentType::Json => "application/vnd.schemaregistry.v1+json",
            ContentType::OctetStream => "application/octet-stream",
        }
    }
}
