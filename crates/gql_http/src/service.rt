//! One request after the other, made on the registry.
ghost use Rattle.std.specs.Prelude.{◌≡◌, ◌++◌, OnOk, OnErr, IfOk, List, ℕ, Some};
ghost use Rattle.gql_ast.specs.declared.fault.Fault.{Fault};
ghost use Rattle.gql_registry.specs.Calls.{Answers, CallResult, effects_in, text_of};
ghost use Rattle.gql_registry.specs.Report.{IsReport};
ghost use Rattle.gql_registry.specs.State.{state_of, with_effects};
ghost use Rattle.serde_json.specs.View.{view};
ghost use Rattle.std.specs.Option.{option_copied};
ghost use Rattle.gql_wire.specs.Stream.{req};
ghost use Rattle.gql_http.specs.Answers.{Said, report_said, run_said};
ghost use Rattle.gql_http.specs.Called.{call_said};
ghost use Rattle.gql_http.specs.Said.{answer_said, ended_bytes};
ghost use Rattle.gql_http.specs.Routes as routes;
ghost use Rattle.gql_wire.specs.Head.{is_head};
ghost use Rattle.gql_http.specs.Service.{Step, Calls};

use crate::answer::{Answer, Ending};
use crate::editing::answer_edit;
use crate::refusal_answer::{body_answer, head_answer, refusal_answer, route_answer};
use crate::report_body::report_body;
use crate::route::{Call, call_of};
use crate::run_body::run_body_in;
use crate::write_answer::{write_answer, write_reply};
use gql_registry::Registry;
use gql_wire::Framed;
use http::StatusCode;
use serde_json::Value;
use std::alloc::{AllocError, Global};

fn report_answer(alloc: Global, registry: &Registry) -> Result<Answer, AllocError>
    ensures { IfOk result (λ a. (faults : List Fault)
        × IsReport (state_of registry.now).files faults
        × (answer_said a ≡ report_said (state_of registry.now).revision faults)) }
{
    let faults = registry.shared_report()?;
    Ok(Answer {
        status: StatusCode::OK,
        allow: None,
        body: report_body(alloc, registry.revision(), faults.as_slice())?,
    })
}

/// Makes a call of a stored operation and writes its reply. The reply is written before the call
/// takes effect: where there is no room for it, nothing has changed.
fn answer_call(
    alloc: Global,
    registry: &mut Registry,
    out: &mut Vec<u8>,
    name: Option<&str>,
    variables: &Value,
    ending: Ending,
) -> Result<(), AllocError>
    ensures ok { OnOk result ((r : CallResult) × (a : Said)
        × Answers (state_of registry.old).files (state_of registry.old).stored
        (option_copied name.entry) (view variables.now) r
        × (run_said (text_of r) ≡ Some a)
        × (state_of registry.new ≡ with_effects (state_of registry.old) (effects_in r))
        × (out.new.items ≡ out.old.items ++ ended_bytes ending a)) }
    ensures err { OnErr result ((state_of registry.new ≡ state_of registry.old)
        × (out.new.items ≡ out.old.items)) }
{
    match registry.prepare(name, variables) {
        Ok(prepared) => {
            write_reply(out, prepared.body(), ending)?;
            registry.commit(prepared);
            Ok(())
        }
        Err(refusal) => write_answer(out, &refusal_answer(alloc, &refusal, None)?, ending),
    }
}

fn answer_run(
    alloc: Global,
    registry: &mut Registry,
    out: &mut Vec<u8>,
    body: &[u8],
    ending: Ending,
) -> Result<(), AllocError>
    ensures ok { OnOk result ((a : Said)
        × Calls (state_of registry.old) routes.run body.now a (state_of registry.new)
        × (out.new.items ≡ out.old.items ++ ended_bytes ending a)) }
    ensures err { OnErr result ((state_of registry.new ≡ state_of registry.old)
        × (out.new.items ≡ out.old.items)) }
{
    match run_body_in(alloc, body) {
        Ok(call) => {
            let (name, variables) = (call.name(), call.variables());
            answer_call(alloc, registry, out, name, variables, ending)
        }
        Err(fault) => write_answer(out, &body_answer(alloc, fault)?, ending),
    }
}

fn make_call(
    alloc: Global,
    registry: &mut Registry,
    out: &mut Vec<u8>,
    call: Call,
    body: &[u8],
    ending: Ending,
) -> Result<(), AllocError>
    ensures ok { OnOk result ((a : Said)
        × Calls (state_of registry.old) (call_said call) body.now a (state_of registry.new)
        × (out.new.items ≡ out.old.items ++ ended_bytes ending a)) }
    ensures err { OnErr result ((state_of registry.new ≡ state_of registry.old)
        × (out.new.items ≡ out.old.items)) }
{
    match call {
        Call::Report => write_answer(out, &report_answer(alloc, registry)?, ending),
        Call::Edit(kind, expected) => {
            answer_edit(alloc, registry, out, kind, expected, body, ending)
        }
        Call::Run => answer_run(alloc, registry, out, body, ending),
        Call::Refused(refusal) => write_answer(out, &route_answer(alloc, refusal)?, ending),
    }
}

/// Makes a request on the registry and writes its answer. If an allocation fails, the request is
/// not made and nothing is written.
pub fn step(
    alloc: Global,
    registry: &mut Registry,
    out: &mut Vec<u8>,
    framed: &Framed,
) -> Result<(), AllocError>
    ensures ok { OnOk result ((bytes : List ℕ)
        × Step (state_of registry.old) (req framed.now) bytes (state_of registry.new)
        × (out.new.items ≡ out.old.items ++ bytes)) }
    ensures err { OnErr result ((state_of registry.new ≡ state_of registry.old)
        × (out.new.items ≡ out.old.items)) }
{
    match framed {
        Framed::Request {
            method,
            target,
            body,
            closing,
        } => {
            let ending = Ending {
                closing: *closing,
                bodiless: is_head(method.as_slice()),
            };
            let profile = registry.profile();
            let call = call_of(alloc, method.as_slice(), target.as_slice(), profile)?;
            make_call(alloc, registry, out, call, body.as_slice(), ending)
        }
        Framed::Refused { number, bodiless } => {
            let ending = Ending {
                closing: true,
                bodiless: *bodiless,
            };
            write_answer(out, &head_answer(alloc, *number)?, ending)
        }
    }
}

fn is_head(method: &[u8]) -> bool
    ensures { result ≡ is_head method.now }
{
    method == b"HEAD".as_slice()
}
