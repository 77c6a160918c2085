//! Where another registry is asked.

/// Where the registry is asked, and by whom.
#[derive(Debug, Drop)]
pub struct Place {
    /// The value of the Host field, with a port where it is not that of the scheme (RFC 9110, section 7.2).
    pub host: String,
    /// The path before `/schemas`: empty, or beginning with `/` and not ending with it.
    pub prefix: String,
    /// The base64 text of `user:password`, empty where there are none (RFC 7617).
    pub credentials: String,
}
