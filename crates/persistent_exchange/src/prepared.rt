//! An answer that is ready before the connection's server asks for it.

ghost use Rattle.std.specs.Prelude.{◌≡◌, ◌++◌, false, IfOk, OnOk};
ghost use Rattle.spec_service.specs.ContentType.{type_name};
ghost use Rattle.spec_service.specs.Status.{number_of};
ghost use Rattle.http_header.specs.FieldValue.{plain_value};
ghost use Rattle.http_server.specs.Response.{IsBlank, fields_of};
ghost use Rattle.spec_service.specs.Preparing.{IsPrepared, answer_of, date_fields};

use bytes::Bytes;
use gateway_requests::{AnswerBytes, ContentType, Status};
use http::{HeaderName, HeaderValue, Request, StatusCode};
use http_server::{Response, Service};
use httpdate::HttpDate;
use std::alloc::{AllocError, Global};
use std::marker::Model;

/// Returns a status as `http` has it.
fn code_of(status: Status) -> StatusCode
    ensures { result ≡ number_of status }
{
    match status {
        Status::Ok => StatusCode::OK,
        Status::BadRequest => StatusCode::BAD_REQUEST,
        Status::NotFound => StatusCode::NOT_FOUND,
        Status::MethodNotAllowed => StatusCode::METHOD_NOT_ALLOWED,
        Status::Conflict => StatusCode::CONFLICT,
        Status::PayloadTooLarge => StatusCode::PAYLOAD_TOO_LARGE,
        Status::UnprocessableEntity => StatusCode::UNPROCESSABLE_ENTITY,
        Status::InternalServerError => StatusCode::INTERNAL_SERVER_ERROR,
        Status::NotImplemented => StatusCode::NOT_IMPLEMENTED,
        Status::ServiceUnavailable => StatusCode::SERVICE_UNAVAILABLE,
    }
}

/// The answer to the next request of a connection, whatever that asks. It is given once.
#[derive(Drop)]
pub struct Prepared {
    alloc: Global,
    /// Whether it was given.
    is_used: bool,
    status: StatusCode,
    content_type: ContentType,
    date: Option<HttpDate>,
    front: Bytes,
    rest: Bytes,
}

impl Model for Prepared {
    ghost use Rattle.std.specs.Prelude.{◌++◌};
    ghost use Rattle.persistent_exchange.specs.Preparing.{AnswerOnce};

    ghost Value = { AnswerOnce };

    ghost view = { λ p. record {
      answer = record {
        status = p.status;
        content_type = p.content_type;
        date = p.date;
        content = p.front ++ p.rest;
      };
      is_used = p.is_used;
    } };
}

impl Prepared {
    /// Returns an answer without its head, with a date, where there is a clock. A long content is not copied. The
    /// error is that memory ran out.
    pub fn of(
        alloc: Global,
        answer: AnswerBytes,
        date: Option<HttpDate>,
    ) -> Result<Prepared, AllocError>
        ensures { IfOk result (λ p. p ≡ record { answer = answer_of answer date; is_used = false }) }
    {
        let AnswerBytes {
            front,
            rest,
            head,
            status,
            content_type,
        } = answer;
        let front = Bytes::copy_from_slice(alloc, &front[head..])?;
        let Ok(rest) = Bytes::from_vec(rest) else {
            return Err(AllocError);
        };
        Ok(Prepared {
            alloc,
            is_used: false,
            status: code_of(status),
            content_type,
            date,
            front,
            rest,
        })
    }

    /// Fills a response with the answer. The error is that memory ran out.
    fn fill(&self, response: &mut Response) -> Result<(), AllocError>
        requires { IsBlank response.old }
        ensures { OnOk result (IsPrepared self.now.answer response.new) }
    {
        response.status = self.status;
        let value = type_value(self.content_type);
        response.add_header(HeaderName::from_static("content-type"), value)?;
        add_date(self.alloc, &self.date, response)?;
        response.body.push(self.front.slice(..)?)?;
        response.body.push(self.rest.slice(..)?)
    }

    /// Returns whether the answer was given.
    pub fn is_used(&self) -> bool
        ensures { result ≡ self.now.is_used }
    {
        self.is_used
    }
}

/// Returns the value of the field that names a type of content (RFC 9110, section 8.3).
fn type_value(content_type: ContentType) -> HeaderValue
    ensures { result ≡ plain_value (type_name content_type) }
{
    match content_type {
        ContentType::Json => HeaderValue::from_static("application/vnd.schemaregistry.v1+json"),
        ContentType::OctetStream => HeaderValue::from_static("application/octet-stream"),
    }
}

/// Adds the date to an answer, where there is one. The error is that memory ran out.
fn add_date(
    alloc: Global,
    date: &Option<HttpDate>,
    response: &mut Response,
) -> Result<(), AllocError>
    ensures headers { OnOk result (fields_of response.new ≡ fields_of response.old ++ date_fields date.now) }
    ensures status { response.new.status ≡ response.old.status }
    ensures body { response.new.body ≡ response.old.body }
{
    let Some(date) = date else {
        return Ok(());
    };
    match HeaderValue::from_bytes(alloc, &date.to_bytes()) {
        Ok(value) => response.add_header(HeaderName::from_static("date"), value),
        Err(_) => Err(AllocError),
    }
}

impl Service for Prepared {
    ghost use Rattle.persistent_exchange.specs.Preparing.{AnswersOnce};

    ghost answers = { AnswersOnce };

    fn call(
        &mut self,
        _request: &Request<Bytes>,
        response: &mut Response,
    ) -> Result<(), AllocError> {
        if self.is_used {
            return Err(AllocError);
        }
        self.fill(response)?;
        self.is_used = true;
        Ok(())
    }
}

/// No answer: a server that asks for one closes its connection.
#[derive(Drop)]
pub(crate) struct NoAnswer;

impl Service for NoAnswer {
    ghost answers = { λ old request response new. ⊥ };

    fn call(
        &mut self,
        _request: &Request<Bytes>,
        _response: &mut Response,
    ) -> Result<(), AllocError> {
        Err(AllocError)
    }
}
