//! What the URL of an upstream registry says.

use std::alloc::{AllocError, Global};
use thiserror::Error;
use url::{ParseError, Url};

/// Where an upstream registry is.
#[derive(Debug, Drop)]
pub struct Target {
    /// The name or the address to connect to; an address of IPv6 has no brackets.
    pub host: String,
    pub port: u16,
    /// What goes into the Host field: the host as the URL has it, with the port where it is not 80 (RFC 9110, section
    /// 7.2).
    pub authority: String,
    /// The path before `/schemas`: empty, or beginning with `/` and not ending with it.
    pub prefix: String,
}

/// Why a URL is not one of an upstream registry.
#[derive(Clone, Copy, Debug, PartialEq, Eq, Error)]
pub enum UrlFault {
    #[error("it is no URL")]
    NoUrl,
    #[error("only http:// is asked; for https put a proxy in front of it")]
    NotHttp,
    #[error("it names a user: credentials are read from a file")]
    HasUser,
    #[error("it has a query or a fragment")]
    HasQuery,
    #[error("out of memory")]
    NoMemory,
}

impl From<AllocError> for UrlFault {
    ghost use Rattle.std.specs.Prelude.{◌≡◌};
    ghost use Rattle.upstream_fetching.specs.declared.target.UrlFault.TheVariants.{NoMemory};

    ghost from_gives = { λ _ e. e ≡ NoMemory };

    fn from(_error: AllocError) -> UrlFault {
        UrlFault::NoMemory
    }
}

/// Returns a host without the brackets of an address of IPv6 (RFC 3986, section 3.2.2).
fn without_brackets(host: &str) -> &str {
    match host.strip_prefix("[") {
        Some(inner) => inner.strip_suffix("]").unwrap_or(host),
        None => host,
    }
}

/// Returns a host, with a port where it is not the one of http.
fn authority_of(alloc: Global, host: &str, port: Option<u16>) -> Result<String, AllocError> {
    match port {
        Some(port) => format!(in alloc; "{host}:{port}"),
        None => String::from_str(alloc, host),
    }
}

/// Returns where the upstream registry of a URL is. Only `http` is asked.
pub fn target_of(alloc: Global, text: &str) -> Result<Target, UrlFault> {
    let url = match Url::parse(alloc, text) {
        Ok(url) => url,
        Err(ParseError::OutOfMemory) => return Err(UrlFault::NoMemory),
        Err(_) => return Err(UrlFault::NoUrl),
    };
    if url.scheme() != "http" {
        return Err(UrlFault::NotHttp);
    }
    if !url.username().is_empty() || url.password().is_some() {
        return Err(UrlFault::HasUser);
    }
    if url.query().is_some() || url.fragment().is_some() {
        return Err(UrlFault::HasQuery);
    }
    let Some(host) = url.host_str() else {
        return Err(UrlFault::NoUrl);
    };
    let path = url.path();
    let prefix = path.strip_suffix("/").unwrap_or(path);
    Ok(Target {
        host: String::from_str(alloc, without_brackets(host))?,
        port: url.port_or_known_default().unwrap_or(80),
        authority: authority_of(alloc, host, url.port())?,
        prefix: String::from_str(alloc, prefix)?,
    })
}
