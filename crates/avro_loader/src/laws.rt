//! The law of images. It does nothing when it runs.

ghost use Rattle.std.specs.Prelude.{◌≡◌, ℕ, List};
ghost use Rattle.spec_machine.specs.Program.{Program};
ghost use Rattle.spec_machine.specs.Range.{IsProgram};
ghost use Rattle.spec_machine.specs.Image.{IsImage};

/// The law that no two programs share an image, of either version.
pub fn image_is_of_one_program()
    ensures { (P Q : Program) (bytes : List ℕ) → IsProgram P → IsProgram Q
        → IsImage P bytes → IsImage Q bytes → P ≡ Q }
{}
