//! The law of listings. It does nothing when it runs.

ghost use Rattle.std.specs.Prelude.{◌≡◌};
ghost use Rattle.spec_machine.specs.Program.{Program};
ghost use Rattle.spec_machine.specs.Range.{IsProgram};
ghost use Rattle.assembler.specs.Listing.{HasBytes};
ghost use Rattle.spec_machine.specs.Listing.{listing_of};

/// The law that no two programs share a listing.
pub fn listing_is_of_one_program()
    ensures { (P Q : Program) → IsProgram P → IsProgram Q → HasBytes P → HasBytes Q
        → listing_of P ≡ listing_of Q → P ≡ Q }
{}
