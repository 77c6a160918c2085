//! Laws of what a registry replies.

ghost use Rattle.std.specs.Prelude.{◌≡◌, ◌++◌, ℕ, Err, List, Some, map};
ghost use Rattle.spec_schema.specs.Schema.{Declaration};
ghost use Rattle.spec_schema.specs.declared.schema_error.SchemaError.TheVariants.{NoMemory};
ghost use Rattle.spec_registry.specs.declared.refusal.Refusal.TheVariants.{BadSchema};
ghost use Rattle.spec_registry.specs.Answer.{IsAnswer};
ghost use Rattle.spec_registry.specs.Accepting.{registry_after};
ghost use Rattle.spec_registry.specs.Answers.{AreAccepted, answer_to};
ghost use Rattle.spec_registry.specs.Command.{Command};
ghost use Rattle.schema_registry.specs.Keeping.{command_for, kept_in};
ghost use Rattle.spec_registry.specs.Lists.{Lists, numbered};
ghost use Rattle.spec_registry.specs.Shared.{IsSomeRefusal};

/// The law that a failed allocation is never reported as a kind of bad schema, by no reply of a registry, and by no
/// refusal of one that threads share.
pub fn memory_is_no_bad_schema()
    ensures answers { (lists : Lists) → (c : Command) → ¬ (IsAnswer (answer_to lists c) (Err (BadSchema NoMemory))) }
    ensures refusals { (c : Command) → ¬ (IsSomeRefusal c (BadSchema NoMemory)) }
{}

/// The law that an id names one schema for good, whatever is accepted later.
pub fn an_id_names_one_schema()
    ensures { (commands more : List Command) → (id : ℕ) → (s : Declaration)
        → numbered (registry_after commands).schemas id ≡ Some s
        → numbered (registry_after (commands ++ more)).schemas id ≡ Some s }
{}

/// The law that what is kept of the commands that a registry has accepted makes the registry.
pub fn kept_commands_make_the_registry()
    ensures { (commands : List Command)
        → registry_after (map command_for (kept_in commands)) ≡ registry_after commands }
{}

/// The law that what is kept of accepted commands is accepted again, each in its turn, and that the same is kept of it,
/// with the same ids.
pub fn kept_commands_are_accepted_again()
    ensures accepted { (commands : List Command) → AreAccepted commands
        → AreAccepted (map command_for (kept_in commands)) }
    ensures same { (commands : List Command) → kept_in (map command_for (kept_in commands)) ≡ kept_in commands }
{}
