//! The path of a target: the route that it has, the action that a method asks for there, and its parameters.

ghost use Rattle.std.specs.Prelude.{◌==◌, ◌≡◌, ◌≤◌, IfErr, IfOk, IfSome, IsUtf8, Some, length, string_bytes};
ghost use Rattle.matchit.specs.declared.error.InsertError.TheVariants.{OutOfMemory};
ghost use Rattle.gateway_requests.specs.Paths.{IsPathOf};
ghost use Rattle.gateway_requests.specs.Route.{IsFree};
ghost use Rattle.spec_service.specs.Route.{all_routes, route_of, with_route};
ghost use Rattle.matchit.specs.Route.{parse_route};
ghost use Rattle.std.specs.List.{after_first, before_first, position_or_len};
ghost use Rattle.spec_service.specs.Path.{path_of, segment};
ghost use Rattle.spec_service.specs.Action.{action_of, either, only};
ghost use Rattle.spec_service.specs.Parameters.{id_of, subject_of, version_of};
ghost use Rattle.gateway_requests.specs.Steps.{Tells};

use crate::{Fault, is_number, number_up_to};
use matchit::{InsertError, Router};
use schema_registry::{MOST_VERSION, Version, is_subject};
pub use spec_service::{Action, Route};
use std::alloc::{AllocError, Global};
use std::marker::Model;

/// All routes, to look a path up in.
#[derive(Drop)]
pub struct Routes {
    router: Router<Route>,
}

impl Model for Routes {
    ghost use Rattle.std.specs.Prelude.{◌≡◌, ⊤};
    ghost use Rattle.spec_service.specs.Route.{all_routes};

    ghost Value = { ⊤ };

    ghost view = { λ r. tt };

    ghost invariant = { λ r. r.router ≡ all_routes };
}

impl Routes {
    /// Returns all routes. The error is that memory ran out.
    pub fn new(alloc: Global) -> Result<Routes, AllocError> {
        match all_routes(alloc) {
            Ok(router) => Ok(Routes { router }),
            Err(InsertError::OutOfMemory) => Err(AllocError),
            Err(_) => unreachable!(),
        }
    }

    /// Returns what the path of a request names, which is a target without its query. `None` where no route has it.
    pub fn find(&self, path: &str) -> Option<Route>
        ensures route { result ≡ route_of path.now }
        ensures found { IfSome result (λ route. IsPathOf route path.now) }
        ensures each { (route : Route) → IsPathOf route path.now → result ≡ Some route }
    {
        self.look_up(path)
    }

    /// Returns the route that the router finds for a path. `None` where it finds none.
    fn look_up(&self, path: &str) -> Option<Route>
        ensures { result ≡ route_of path.now }
    {
        match self.router.at(path) {
            Ok(found) => Some(*found.value),
            Err(_) => None,
        }
    }
}

/// Adds a route to the router by its text, which names each parameter in braces. `OutOfMemory` where memory ran out.
fn add(router: &mut Router<Route>, text: &str, route: Route) -> Result<(), InsertError>
    requires { IsFree (parse_route text.now) router.old }
    ensures taken { IfOk result (λ added. router.new ≡ with_route text.now route router.old) }
    ensures refused { IfErr result (λ why. why ≡ OutOfMemory) }
{
    router.insert(text, route)
}

/// Returns a router with each route. `OutOfMemory` where memory ran out.
fn all_routes(alloc: Global) -> Result<Router<Route>, InsertError>
    ensures taken { IfOk result (λ router. router ≡ all_routes) }
    ensures refused { IfErr result (λ why. why ≡ OutOfMemory) }
{
    let mut router = Router::new(alloc);
    add(&mut router, "/subjects", Route::Subjects)?;
    add(&mut router, "/subjects/{subject}", Route::Subject)?;
    add(&mut router, "/subjects/{subject}/versions", Route::Versions)?;
    let version = "/subjects/{subject}/versions/{version}";
    add(&mut router, version, Route::Version)?;
    add(&mut router, "/schemas/ids/{id}", Route::Schema)?;
    let compatibility = "/compatibility/subjects/{subject}/versions/{version}";
    add(&mut router, compatibility, Route::Compatibility)?;
    add(&mut router, "/config", Route::Config)?;
    add(&mut router, "/config/{subject}", Route::SubjectConfig)?;
    add(&mut router, "/transcode/{id}", Route::Transcode)?;
    Ok(router)
}

/// Returns the offset of the first such byte, or of the end.
fn offset_of(byte: u8, text: &[u8]) -> usize
    ensures offset { result ≡ position_or_len (λ b. b == byte) text.now }
    ensures within { result ≤ length text.now }
{
    for (offset, b) in text.iter().enumerate() {
        if *b == byte {
            return offset;
        }
    }
    text.len()
}

/// Returns the bytes before the first such byte; all where there is none.
fn before(byte: u8, text: &[u8]) -> &[u8]
    ensures { result.now ≡ before_first (λ b. b == byte) text.now }
{
    let offset = offset_of(byte, text);
    &text[..offset]
}

/// Returns the bytes after the first such byte; none where there is none.
fn behind(byte: u8, text: &[u8]) -> &[u8]
    ensures { result.now ≡ after_first (λ b. b == byte) text.now }
{
    let offset = offset_of(byte, text);
    if offset < text.len() {
        &text[offset + 1..]
    } else {
        &text[text.len()..]
    }
}

/// Returns a target without its query.
#[tactic(auto, using(crate::proofs::Targets::path_is_text))]
pub fn path_of(target: &[u8]) -> &str
    requires { IsUtf8 target.now }
    ensures { result.now ≡ path_of target.now }
{
    match std::str::from_utf8(before(b'?', target)) {
        Ok(path) => path,
        Err(_) => unreachable!(),
    }
}

/// Returns the segment after `number` slashes, up to the next slash or the end; empty where there are fewer slashes.
pub(crate) fn segment(number: usize, path: &[u8]) -> &[u8]
    ensures { result.now ≡ segment number path.now }
{
    let mut rest = path;
    let mut left = number;
    while left > 0 {
        rest = behind(b'/', rest);
        left -= 1;
    }
    before(b'/', rest)
}

/// Returns an action where the method is the one that is wanted, else `None`.
fn only(method: &[u8], wanted: &[u8], action: Action) -> Option<Action>
    ensures { result ≡ only method.now wanted.now action }
{
    if method == wanted { Some(action) } else { None }
}

/// Returns the one action for GET, the other for another method, else `None`.
fn either(method: &[u8], shown: Action, other: &[u8], changed: Action) -> Option<Action>
    ensures { result ≡ either method.now shown other.now changed }
{
    if method == "GET".as_bytes() {
        Some(shown)
    } else {
        only(method, other, changed)
    }
}

/// Returns what a method asks for at a route. `None` where the route has no such method.
pub(crate) fn action_of(route: Route, method: &[u8]) -> Option<Action>
    ensures { result ≡ action_of route method.now }
{
    let (get, post, put) = ("GET".as_bytes(), "POST".as_bytes(), "PUT".as_bytes());
    match route {
        Route::Subjects => only(method, get, Action::ListSubjects),
        Route::Subject => only(method, post, Action::Lookup),
        Route::Versions => either(method, Action::ListVersions, post, Action::Register),
        Route::Version => only(method, get, Action::ShowVersion),
        Route::Schema => only(method, get, Action::ShowSchema),
        Route::Compatibility => only(method, post, Action::Check),
        Route::Config => either(method, Action::ShowLevel, put, Action::SetLevel),
        Route::SubjectConfig => either(
            method,
            Action::ShowSubjectLevel,
            put,
            Action::SetSubjectLevel,
        ),
        Route::Transcode => only(method, post, Action::Transcode),
    }
}

/// How many ids there are, from 0 on.
const IDS: u64 = 1 << 32;

/// Returns the subject with a name. `BadSubject` where it is no name of a subject.
#[tactic(auto, using(crate::proofs::Subjects::no_subject))]
pub(crate) fn subject_of(alloc: Global, text: &[u8]) -> Result<String, Fault>
    ensures { Tells string_bytes result (subject_of text.now) }
{
    let Ok(text) = std::str::from_utf8(text) else {
        return Err(Fault::BadSubject);
    };
    if !is_subject(text) {
        return Err(Fault::BadSubject);
    }
    Ok(String::from_str(alloc, text)?)
}

/// Returns the version that a number or the word `latest` names. `BadVersion` where the text is neither.
pub(crate) fn version_of(text: &[u8]) -> Result<Version, Fault>
    ensures { result ≡ version_of text.now }
{
    if text == "latest".as_bytes() {
        return Ok(Version::Latest);
    }
    if !is_number(text) {
        return Err(Fault::BadVersion);
    }
    let number = number_up_to(text, MOST_VERSION as u64 + 1);
    if 1 <= number && number <= MOST_VERSION as u64 {
        Ok(Version::Number(number as u32))
    } else {
        Err(Fault::BadVersion)
    }
}

/// Returns the id that a text spells. `NoSchema` where it spells none.
pub(crate) fn id_of(text: &[u8]) -> Result<u32, Fault>
    ensures { result ≡ id_of text.now }
{
    if !is_number(text) {
        return Err(Fault::NoSchema);
    }
    let number = number_up_to(text, IDS);
    if number < IDS {
        Ok(number as u32)
    } else {
        Err(Fault::NoSchema)
    }
}
