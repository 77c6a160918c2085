//! The upstream registry.

ghost use Rattle.std.specs.Prelude.{OnOk};
ghost use Rattle.spec_service.specs.UpstreamNaming.{IsTextOf};

use schema_registry::KeepFault;

/// Why an exchange with the upstream registry gave no bytes of an answer.
#[derive(Clone, Copy, Debug, PartialEq, Eq)]
pub enum ExchangeFault {
    /// Its name has no address, or no connection was made.
    Unreached,
    /// The connection was closed before any byte came.
    Closed,
    /// No whole answer came in time.
    Late,
    /// The connection failed or was closed within an answer, or what came can be no answer.
    BadAnswer,
    NoMemory,
}

/// The upstream registry: who sends it a question and receives its answer, and who keeps what it answered. What it
/// answered, and what was kept, are the world's record, which contracts alone can name.
pub trait Upstream {
    ghost use Rattle.std.specs.Prelude.{ℕ, List, IfOk};

    // These bytes were received on a connection of its own, on which this question was sent.
    ghost heard: { List ℕ → List ℕ → Type 0 };

    // This process or an earlier one kept this text of a schema, which the upstream had answered for this id.
    ghost kept: { ℕ → List ℕ → Type 0 };

    /// Sends a question on a connection of its own, and returns the bytes that come until an answer is whole or the
    /// connection is closed.
    fn exchange(&self, question: &str) -> Result<Vec<u8>, ExchangeFault>
        ensures { IfOk result (λ received. heard question.now received.items) };

    /// Keeps the text of a schema for an id, so that a process that starts later has it. Who keeps nothing beyond the
    /// process has nothing to do. `NoMemory`: nothing is kept. `NotStored`: nothing is kept, or where it is kept takes
    /// no more.
    fn keep(&self, id: u32, text: &str) -> Result<(), KeepFault>
        requires { IsTextOf heard kept id text.now }
        ensures { OnOk result (kept id text.now) };
}
