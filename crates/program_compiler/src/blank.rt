//! Whether a datum is written as no bytes.

ghost use Rattle.std.specs.Prelude.{◌≡◌, ◌==◌, length};
ghost use Rattle.avro_types.specs.Datum.{data_of, datum_of};
ghost use Rattle.spec_avro.specs.Writing.{written, written_data};

use avro_types::Datum;

/// Returns whether a datum is written as no bytes. No byte is looked at after the first.
#[cycle(blank)]
#[tactic(auto, using(avro_datum::proofs::Written::record_written), unfolding(spec_avro::specs::Writing::written))]
pub(crate) fn is_blank(datum: &Datum) -> bool
    ensures { result ≡ (length (written (datum_of datum.now)) == 0) }
{
    match datum {
        Datum::Null => true,
        Datum::Fixed(value) => value.is_empty(),
        Datum::Record(fields) => are_blank(fields),
        Datum::Boolean(_) => false,
        Datum::Int(_) => false,
        Datum::Long(_) => false,
        Datum::Enum(_) => false,
        Datum::Bytes(_) => false,
        Datum::Text(_) => false,
        Datum::Array(_) => false,
        Datum::Map(_) => false,
        Datum::Union(_, _) => false,
    }
}

/// Returns whether data are all written as no bytes.
#[cycle(blank)]
#[tactic(auto, using(crate::proofs::NoBytes::blank_here), unfolding(spec_avro::specs::Writing::written))]
fn are_blank(each: &[Datum]) -> bool
    ensures { result ≡ (length (written_data (data_of each.now)) == 0) }
{
    for datum in each {
        if !is_blank(datum) {
            return false;
        }
    }
    true
}
