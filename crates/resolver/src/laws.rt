//! Laws of resolution, safety and outcomes. They do nothing when they run.

ghost use Rattle.std.specs.Prelude.{◌≡◌, ℕ, List};
ghost use Rattle.spec_avro.specs.Node.{Node};
ghost use Rattle.spec_avro.specs.Outcome.{Outcome};
ghost use Rattle.spec_avro.specs.PayloadOutcome.{IsOutcome};
ghost use Rattle.spec_avro.specs.Safety.{SafeDataAreReadable};
ghost use Rattle.spec_avro.specs.Answers.{AnswersAreSpelled, ResolutionIsWhole};

use avro_types::Nodes;

/// The law that what comes of a writer's datum is a datum of the reader's node, whole and in range.
pub fn resolution_is_whole(writer: &Nodes, reader: &Nodes)
    ensures { ResolutionIsWhole writer.now reader.now }
{
    reader.is_well_formed(); // law
    reader.defaults_conform(); // law
}

/// The law that an output encodes, by the reader's schema, what comes of the payload's datum.
pub fn answer_is_spelled(writer: &Nodes, reader: &Nodes)
    ensures { AnswersAreSpelled writer.now reader.now }
{
    reader.is_well_formed(); // law
    reader.defaults_are_short(); // law
    resolution_is_whole(writer, reader); // law
    avro_datum::spelled_datum_conforms(); // law
    avro_datum::written_form_is_the_shortest_spelling(); // law
}

/// The law that a reader that is safe with a writer reads each of its data, but for bytes that are no UTF-8.
pub fn what_is_safe_can_be_read()
    ensures { SafeDataAreReadable }
{}

/// The law that each payload has just one outcome.
pub fn payload_has_one_outcome()
    ensures some { (W R : List Node) (payload : List ℕ) → (o : Outcome) × IsOutcome W R payload o }
    ensures one { (W R : List Node) (payload : List ℕ) (a b : Outcome) →
        IsOutcome W R payload a → IsOutcome W R payload b → a ≡ b }
{
    avro_datum::payload_is_spelled_or_faulty(); // law
}
