//! Words that name types.

ghost use Rattle.std.specs.Prelude.{◌≡◌, option_map};
ghost use Rattle.avro_schema_names.specs.Draft.{data_at};
ghost use Rattle.avro_types.specs.Node.{node_of};
ghost use Rattle.spec_schema.specs.Word.{leaf_of, form_of};

use avro_types::Kind;
use serde_json::Value;
pub use spec_schema::{Form, Word};

/// Returns the node that the word is by itself; `None` where it is none.
pub fn leaf_of(word: Word) -> Option<Kind>
    ensures { option_map node_of result ≡ leaf_of word }
{
    match word {
        Word::Null => Some(Kind::Null),
        Word::Boolean => Some(Kind::Boolean),
        Word::Int => Some(Kind::Int),
        Word::Long => Some(Kind::Long),
        Word::Bytes => Some(Kind::Bytes),
        Word::Text => Some(Kind::Text),
        _ => None,
    }
}

/// Returns the form of an object with this value at `type`.
pub fn form_of_type(value: Option<&Value>) -> Form
    ensures { result ≡ form_of (data_at value.entry) }
{
    match value {
        Some(Value::String(text)) => Form::of_word(Word::of_text(text.as_str())),
        _ => Form::Other,
    }
}
