//! The subcommands that answer questions about schemas.

use crate::ending::status_of;
use command_line::Explanation;
use commands::{Form, Level, Question, Status, Verdict, answer};

/// Prints the answer to a question about the schemas on standard input. Where the answer is no, that is a status of
/// its own.
fn ask(rt: &(impl Input + Print + AllocGlobal), question: Question) -> Status {
    let mut reader = rt.reader();
    let mut writer = std::io::writer(rt);
    match answer(rt.alloc(), question, &mut reader, &mut writer) {
        Ok(Verdict::Yes) => Status::Answered,
        Ok(Verdict::No) => Status::Refused,
        Err(error) => status_of(Err(error)),
    }
}

/// Lists the nodes of the schema on standard input.
pub(crate) fn list_nodes(rt: &(impl Input + Print + AllocGlobal)) -> Status {
    ask(rt, Question::Nodes)
}

/// Checks the two schemas on standard input at the level of a name; another name than `FORWARD` and `FULL` is that of
/// `BACKWARD`.
pub(crate) fn check(rt: &(impl Input + Print + AllocGlobal), level: &str) -> Status {
    let level = match level {
        "FORWARD" => Level::Forward,
        "FULL" => Level::Full,
        _ => Level::Backward,
    };
    ask(rt, Question::Check { level })
}

/// Explains what becomes of messages between the two schemas on standard input.
pub(crate) fn explain(rt: &(impl Input + Print + AllocGlobal), explanation: Explanation) -> Status {
    let form = match explanation {
        Explanation::Tree => Form::Tree,
        Explanation::Json => Form::Json,
        Explanation::Pair { writer, reader } => Form::Pair { writer, reader },
    };
    ask(rt, Question::Explain { form })
}
