//! Where the commands of a registry are kept, so that they are there after a restart.

ghost use Rattle.std.specs.Prelude.{◌≡◌, ◌⊎◌, ◌++◌, [], ◌∷◌, List, Bool, true, false, IfErr, OnOk, OnErr, option_map, string_bytes};
ghost use Rattle.schema_registry.specs.Keeping.{KeptCommand, KeptLevel, KeptRegistration};

use crate::level::Level;
pub use spec_registry::KeepFault;

/// Keeps commands, in their order.
pub trait Keeper {
    /// It has these commands, and no others.
    ghost keeps: { Self → List KeptCommand → Type 0 };

    /// A crash at this moment may leave these.
    ghost leaves: { Self → List KeptCommand → Type 0 };

    /// A crash at this moment may leave what is of no commands.
    ghost spoils: { Self → Type 0 };

    /// It takes more.
    ghost is_open: { Self → Bool };

    /// A call that took the first and left the second could not keep this command.
    ghost fails: { Self → Self → KeptCommand → Type 0 };

    /// Keeps a registration, with the id that is returned for it.
    ///
    /// At `Ok` each crash leaves it. At `Err` the keeper has what it had, or takes no more.
    fn keep_registration(&mut self, id: u32, subject: &str, text: &str) -> Result<(), KeepFault>
        ensures kept { OnOk result ((ks : List KeptCommand) → keeps self.old ks
            → keeps self.new (ks ++ KeptRegistration id subject.now text.now ∷ [])) }
        ensures refused { OnErr result (is_open self.new ≡ true → (ks : List KeptCommand) → keeps self.old ks
            → keeps self.new ks) }
        ensures crash { (ks : List KeptCommand) → keeps self.old ks → (left : List KeptCommand) → leaves self.new left
            → (left ≡ ks) ⊎ (left ≡ ks ++ KeptRegistration id subject.now text.now ∷ []) }
        ensures open { OnOk result (is_open self.old ≡ true) }
        ensures readable { (ks : List KeptCommand) → keeps self.old ks → ¬ (spoils self.new) }
        ensures closed { is_open self.old ≡ false → (is_open self.new ≡ false)
            × ((left : List KeptCommand) → leaves self.new left → leaves self.old left)
            × (spoils self.new → spoils self.old) }
        ensures why { IfErr result (λ e. e ≡ KeepFault.NotStored
            → fails self.old self.new (KeptRegistration id subject.now text.now)) };

    /// Keeps a level that is set for a subject, or for all. At `Ok` each crash leaves it. At `Err` the keeper has what
    /// it had, or takes no more.
    fn keep_level(&mut self, subject: &Option<String>, level: Level) -> Result<(), KeepFault>
        ensures kept { OnOk result ((ks : List KeptCommand) → keeps self.old ks
            → keeps self.new (ks ++ KeptLevel (option_map string_bytes subject.now) level ∷ [])) }
        ensures refused { OnErr result (is_open self.new ≡ true → (ks : List KeptCommand) → keeps self.old ks
            → keeps self.new ks) }
        ensures crash { (ks : List KeptCommand) → keeps self.old ks → (left : List KeptCommand) → leaves self.new left
            → (left ≡ ks) ⊎ (left ≡ ks ++ KeptLevel (option_map string_bytes subject.now) level ∷ []) }
        ensures open { OnOk result (is_open self.old ≡ true) }
        ensures readable { (ks : List KeptCommand) → keeps self.old ks → ¬ (spoils self.new) }
        ensures closed { is_open self.old ≡ false → (is_open self.new ≡ false)
            × ((left : List KeptCommand) → leaves self.new left → leaves self.old left)
            × (spoils self.new → spoils self.old) }
        ensures why { IfErr result (λ e. e ≡ KeepFault.NotStored
            → fails self.old self.new (KeptLevel (option_map string_bytes subject.now) level)) };

    /// Takes back the command that it kept last, or takes no more.
    fn take_back(&mut self)
        ensures taken { is_open self.new ≡ true → (ks : List KeptCommand) → (k : KeptCommand)
            → keeps self.old (ks ++ k ∷ []) → keeps self.new ks }
        ensures crash { (ks : List KeptCommand) → (k : KeptCommand) → keeps self.old (ks ++ k ∷ [])
            → (left : List KeptCommand) → leaves self.new left → (left ≡ ks) ⊎ (left ≡ ks ++ k ∷ []) }
        ensures readable { (ks : List KeptCommand) → (k : KeptCommand) → keeps self.old (ks ++ k ∷ [])
            → ¬ (spoils self.new) };

    /// The law that each crash leaves what it has.
    fn leaves_what_it_has(&self)
        ensures crash { (ks left : List KeptCommand) → keeps self.now ks → leaves self.now left → left ≡ ks }
        ensures readable { (ks : List KeptCommand) → keeps self.now ks → ¬ (spoils self.now) };
}

/// Keeps what its keeper keeps; or nothing, for a registry that ends with its process.
impl<K: Keeper> Keeper for Option<K> {
    ghost use Rattle.std.specs.Prelude.{true};
    ghost use Rattle.std.specs.Option.{option_map_or};
    ghost use Rattle.schema_registry.specs.Keeping.{FailsIfSome, KeepsIfSome, LeavesIfSome, SpoilsIfSome};

    ghost keeps = { KeepsIfSome K.keeps };

    ghost leaves = { LeavesIfSome K.leaves };

    ghost spoils = { SpoilsIfSome K.spoils };

    ghost is_open = { λ keeper. option_map_or K.is_open keeper true };

    ghost fails = { FailsIfSome K.fails };

    fn keep_registration(&mut self, id: u32, subject: &str, text: &str) -> Result<(), KeepFault> {
        match self {
            Some(keeper) => keeper.keep_registration(id, subject, text),
            None => Ok(()),
        }
    }

    fn keep_level(&mut self, subject: &Option<String>, level: Level) -> Result<(), KeepFault> {
        match self {
            Some(keeper) => keeper.keep_level(subject, level),
            None => Ok(()),
        }
    }

    fn take_back(&mut self) {
        if let Some(keeper) = self {
            keeper.take_back();
        }
    }

    fn leaves_what_it_has(&self) {
        if let Some(keeper) = self {
            keeper.leaves_what_it_has(); // law
        }
    }
}
