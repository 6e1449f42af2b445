// Two sites sealed by calls on two new registers, and what their seals are worth.
ghost use Rattle.hashes.specs.KeyFault.{opened};
ghost use Rattle.line_reader.specs.Calls.{call_input, line_reply};
ghost use Rattle.line_reader.specs.Handover.{HandoverPromise, SealsSite, placed, replies_if, sealing};
ghost use Rattle.line_reader.specs.Sending.{MakesCalls};
ghost use Rattle.register.specs.Inputs.{input_after, input_reply};
ghost use Rattle.register.specs.Values.{view};
ghost use Rattle.register.specs.View.{opening};
ghost use Rattle.std.specs.Prelude.{◌≡◌, map, length, replicate, set};

use crate::calls::{Call, line};
use crate::fault::LineFault;
use hashes::family::Family;
use hashes::key_fault::KeyFault;
use register::facts::{message_bounds, register_facts, seal_bounds};
use register::register::Register;

// Makes a call.
fn serve<F: Family>(register: &mut Register<F>, call: Call) -> Result<usize, LineFault>
    ensures answers { line_reply result ≡ input_reply F.meaning (view F.meaning F.state register.old) (call_input call.entry) }
    ensures leaves { view F.meaning F.state register.new ≡ input_after F.meaning (view F.meaning F.state register.old) (call_input call.entry) }
{
    match call {
        Call::Line(bytes) => line(register, bytes),
        Call::Zone { number, name } => Ok(register.zone(number, name)?),
        Call::Point { number, zone, kind } => Ok(register.point(number, zone, kind)?),
        Call::Rule { zone, point } => Ok(register.rule(zone, point)?),
    }
}

// Puts an answer into its place, if there is one.
fn put_answer(answers: &mut [Result<usize, LineFault>], i: usize, answer: Result<usize, LineFault>)
    ensures { answers.new ≡ set answers.old i answer }
{
    // By index: of a slice written through `get_mut` a proof knows the length alone.
    if i < answers.len() {
        answers[i] = answer;
    }
}

// Makes calls in order. The answers go into the places in order, as far as there are places.
fn serve_all<F: Family>(
    register: &mut Register<F>,
    calls: &[Call],
    answers: &mut [Result<usize, LineFault>],
)
    ensures { MakesCalls F.meaning (view F.meaning F.state register.old) (view F.meaning F.state register.new) calls.now (map line_reply answers.old) (map line_reply answers.new) }
{
    // Not a `zip`, which would stop at the last place.
    for (i, call) in calls.iter().enumerate() {
        let answer = serve(register, *call);
        put_answer(answers, i, answer);
    }
}

// Opens a register by a key buffer, which it leaves zero, makes the calls in order, and closes it: the seal. The answers go into the
// places in order, as far as there are places.
#[tactic(auto, using(crate::proofs::Progress::calls_sealed, crate::proofs::Progress::calls_replied, crate::proofs::Promised::site_outcome))]
pub fn seal_calls<F: Family>(
    buffer: &mut [u8],
    calls: &[Call],
    answers: &mut [Result<usize, LineFault>],
) -> Result<u64, KeyFault>
    ensures outcome { SealsSite F.meaning buffer.old calls.now (map line_reply answers.old)
        (opened (λ s. s) result) (map line_reply answers.new) }
    ensures seals { opened (λ s. s) result ≡ sealing F.meaning buffer.old calls.now }
    ensures replies { map line_reply answers.new ≡ placed (replies_if (opening F.meaning buffer.old) calls.now) (map line_reply answers.old) }
    ensures cleared { buffer.new ≡ replicate (length buffer.old) 0 }
{
    // What the register promises of its calls, by which the clauses follow.
    register_facts::<F>();
    let mut register = Register::<F>::open(buffer)?;
    serve_all(&mut register, calls, answers);
    Ok(register.close())
}

// Seals two sites by calls on two new registers, each by its own key buffer, which it leaves zero, and answers both seals. What belongs to
// a site is no struct: a public call would then ask callers for another argument. Each call says itself that its buffers end as zeros, as `open` does.
pub fn handover<F: Family>(
    buffer: &mut [u8],
    calls: &[Call],
    answers: &mut [Result<usize, LineFault>],
    buffer2: &mut [u8],
    calls2: &[Call],
    answers2: &mut [Result<usize, LineFault>],
) -> (Result<u64, KeyFault>, Result<u64, KeyFault>)
    ensures outcome { SealsSite F.meaning buffer.old calls.now (map line_reply answers.old)
        (opened (λ s. s) result.0) (map line_reply answers.new) }
    ensures cleared { buffer.new ≡ replicate (length buffer.old) 0 }
    ensures outcome2 { SealsSite F.meaning buffer2.old calls2.now (map line_reply answers2.old)
        (opened (λ s. s) result.1) (map line_reply answers2.new) }
    ensures cleared2 { buffer2.new ≡ replicate (length buffer2.old) 0 }
    ensures promise { HandoverPromise F.meaning }
{
    // What the register promises of runs and bounds, from which the promise follows.
    register_facts::<F>();
    seal_bounds::<F>();
    message_bounds::<F>();
    (
        seal_calls::<F>(buffer, calls, answers),
        seal_calls::<F>(buffer2, calls2, answers2),
    )
}
