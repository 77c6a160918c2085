//! Words that name types.

ghost use Rattle.std.specs.Prelude.{◌≡◌};
ghost use Rattle.spec_schema.specs.Word.{word_of, is_left_out, is_primitive, form_of_word};

/// A word that names a type.
#[derive(Clone, Copy, Debug)]
pub enum Word {
    Null,
    Boolean,
    Int,
    Long,
    Bytes,
    Text,
    Float,
    Double,
    Record,
    Enum,
    Fixed,
    Array,
    Map,
    Error,
    Other,
}

impl Word {
    /// Returns the word that a text is; `Other` where it names no type.
    pub fn of_text(text: &str) -> Word
        ensures { result ≡ word_of text.now }
    {
        match text {
            "null" => Word::Null,
            "boolean" => Word::Boolean,
            "int" => Word::Int,
            "long" => Word::Long,
            "bytes" => Word::Bytes,
            "string" => Word::Text,
            "float" => Word::Float,
            "double" => Word::Double,
            "record" => Word::Record,
            "enum" => Word::Enum,
            "fixed" => Word::Fixed,
            "array" => Word::Array,
            "map" => Word::Map,
            "error" => Word::Error,
            _ => Word::Other,
        }
    }

    /// Returns whether it names a primitive type of Avro.
    pub fn is_primitive(self) -> bool
        ensures { result ≡ is_primitive self }
    {
        matches!(
            self,
            Word::Null
                | Word::Boolean
                | Word::Int
                | Word::Long
                | Word::Bytes
                | Word::Text
                | Word::Float
                | Word::Double
        )
    }

    /// Returns whether it names a primitive type that is left out.
    pub fn is_left_out(self) -> bool
        ensures { result ≡ is_left_out self }
    {
        matches!(self, Word::Float | Word::Double)
    }
}

/// What the `type` of an object makes of it.
#[derive(Clone, Copy, Debug)]
pub enum Form {
    Record,
    Enum,
    Fixed,
    Array,
    Map,
    /// A record of a protocol's errors.
    Error,
    /// The object is the schema at `type`.
    Other,
}

impl Form {
    /// Returns the form of an object whose `type` is this word.
    pub fn of_word(word: Word) -> Form
        ensures { result ≡ form_of_word word }
    {
        match word {
            Word::Record => Form::Record,
            Word::Enum => Form::Enum,
            Word::Fixed => Form::Fixed,
            Word::Array => Form::Array,
            Word::Map => Form::Map,
            Word::Error => Form::Error,
            _ => Form::Other,
        }
    }
}
