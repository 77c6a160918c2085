//! What the words of the command line ask for.

use spec_lines::Verb;
use std::net::IpAddr;

/// What the words of the command line ask for.
#[derive(Clone, Copy, Debug, PartialEq, Eq)]
pub enum Task<'w> {
    /// To answer the lines of standard input.
    Lines(Verb),
    /// To serve HTTP.
    Serve(ServeWords<'w>),
    /// To list the nodes of the schema on standard input.
    Nodes,
    /// To check the two schemas on standard input, at the level with this name.
    Check(&'w str),
    /// To explain what becomes of messages between the two schemas on standard input.
    Explain(Explanation),
    /// To print the lines of `replay` that make the registry of a store again, whose file is the standard input.
    Export,
    /// To make a store of the lines of `replay` on standard input, in a new file at this path.
    Import(&'w str),
}

/// How messages are to be explained.
#[derive(Clone, Copy, Debug, PartialEq, Eq)]
pub enum Explanation {
    /// As a tree of lines.
    Tree,
    /// As one JSON value.
    Json,
    /// Of one pair of nodes, as a mismatch names them.
    Pair { writer: u32, reader: u32 },
}

/// How a service is to run.
#[derive(Clone, Copy, Debug, PartialEq, Eq)]
pub struct ServeWords<'w> {
    /// The path of the file that the registry is kept in. `None` where it ends with its process.
    pub store: Option<&'w str>,
    /// The address that it listens on.
    pub address: IpAddr,
    /// The port, or 0 for any that is free.
    pub port: u16,
    /// The number of threads that answer requests.
    pub clients: u32,
    /// The number of threads beside them for messages that take long.
    pub workers: u32,
    /// The number of connections that each client accepts, or 0 for no end.
    pub each: u32,
    /// The number of connections of each client that may be open at once.
    pub connections: u32,
    /// The number of seconds that the head of a request may take to come.
    pub head_timeout: u32,
    /// The number of seconds that the bytes of one request may take to come, and then those of its answer to go.
    pub request_timeout: u32,
    /// The URL of the registry whose ids messages have. `None` where they have those of the registry that is served.
    pub upstream: Option<&'w str>,
    /// The number of seconds that the upstream registry may take to answer.
    pub upstream_timeout: u32,
    /// The path of the file with the credentials by which the upstream registry is asked.
    pub upstream_credentials: Option<&'w str>,
    /// Whether connections stay for more than one request.
    pub is_persistent: bool,
    /// The number of seconds that such a connection may wait for its next request.
    pub idle_timeout: u32,
    /// Whether each answer is logged.
    pub is_logged: bool,
}
