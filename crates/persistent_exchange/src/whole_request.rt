//! A request of a connection that stays, which has come whole.

ghost use Rattle.std.specs.Prelude.{◌≡◌, IfErr, IfOk};
ghost use Rattle.spec_service.specs.Asking.{asked_at};
ghost use Rattle.gateway_requests.specs.Request.{request_of};
ghost use Rattle.gateway_requests.specs.Sizes.{IsWithin};
ghost use Rattle.gateway_requests.specs.Steps.{Tells};
ghost use Rattle.spec_service.specs.declared.limits.TheConstants.{MOST_BODY};
ghost use Rattle.spec_service.specs.StreamRefused.{IsRefused};

use gateway_requests::{Action, Fault, MOST_BODY, Request, Routes, action_at, path_of, request_of};
use std::alloc::Global;
use std::marker::Model;
use std::str;

/// A request that has come whole: its method, its target and its content.
#[derive(Drop)]
pub struct WholeRequest {
    alloc: Global,
    /// What the method asks for at the target, or the first fault of these.
    action: Result<Action, Fault>,
    method: Vec<u8>,
    target: String,
    content: Vec<u8>,
}

impl Model for WholeRequest {
    ghost use Rattle.std.specs.Prelude.{◌≡◌, ◌≤◌, length, string_bytes};
    ghost use Rattle.spec_service.specs.Asking.{action_at};
    ghost use Rattle.spec_service.specs.declared.limits.TheConstants.{MOST_BODY};
    ghost use Rattle.spec_service.specs.Stream.{Asked};

    ghost Value = { Asked };

    ghost view = { λ r. record {
      method = r.method.items;
      target = string_bytes r.target;
      content = r.content.items;
    } };

    ghost invariant = { λ r. (r.action ≡ action_at r.method.items (string_bytes r.target))
        × (length r.content.items ≤ MOST_BODY) };
}

impl WholeRequest {
    /// Returns a request of a method, a target and a content. `BadRequest` where the target is no text, `TooLarge`
    /// where the content is longer than the limit, `NoMemory` where memory ran out.
    pub fn new(
        alloc: Global,
        routes: &Routes,
        method: &[u8],
        target: &[u8],
        content: Vec<u8>,
    ) -> Result<WholeRequest, Fault>
        ensures request { IfOk result (λ request. request
            ≡ record { method = method.now; target = target.now; content = content.items }) }
        ensures refused { IfErr result (IsRefused
            (record { method = method.now; target = target.now; content = content.items })) }
    {
        if content.len() > MOST_BODY {
            return Err(Fault::TooLarge);
        }
        let Ok(text) = str::from_utf8(target) else {
            return Err(Fault::BadRequest);
        };
        let action = action_at(routes, method, text);
        let target = String::from_str(alloc, text)?;
        let method = method.to_vec(alloc)?;
        Ok(WholeRequest {
            alloc,
            action,
            method,
            target,
            content,
        })
    }

    /// Returns the request's method.
    pub fn method(&self) -> &[u8]
        ensures { result.now ≡ self.now.method }
    {
        &self.method
    }

    /// Returns the request's target.
    pub fn target(&self) -> &str
        ensures { result.now ≡ self.now.target }
    {
        self.target.as_str()
    }

    /// Returns the request's content.
    pub fn content(&self) -> &[u8]
        ensures { result.now ≡ self.now.content }
    {
        &self.content
    }

    /// Returns what the request asks, or its first fault.
    pub fn into_request(self) -> Result<Request, Fault>
        ensures tells { Tells request_of result (asked_at self.method self.target self.content) }
        ensures size { IfOk result (λ request. IsWithin MOST_BODY (request_of request)) }
    {
        let WholeRequest {
            alloc,
            action,
            target,
            content,
            ..
        } = self;
        let action = action?;
        let target = target.as_str();
        let path = path_of(target.as_bytes()).as_bytes();
        request_of(alloc, path, Some(content), action)
    }
}
