// The messages whose body is one part, or none: ClientKeyExchange, Finished, HelloRequest (RFC 5246
// 7.4.7, 7.4.9, 7.4.1.1).
#![tactic(auto)]

ghost use Rattle.std.specs.Prelude.{ℕ, List, [], ◌≡◌, ◌≤◌};
ghost use Rattle.field.specs.Fields.{sized};
ghost use Rattle.field.specs.Texts.{field_text};
ghost use Rattle.refusal.specs.Answers.{Answer, then, as_answer};
ghost use Rattle.registry.specs.Types.{hello_request_type, client_key_exchange_type, finished_type};
ghost use Rattle.wire.specs.Numbers.{bytes_in};
ghost use Rattle.wire.specs.Puts.{room, written};
ghost use Rattle.write_rules.specs.JoinTexts.{text_length};
ghost use Rattle.write_rules.specs.MessageTexts.{head_text, message_text, view_text};
ghost use Rattle.write_others.specs.Exchange.{exchange_text, form_text, part_text, told_text};

use field::RuleName;
use message::keyexchange;
use message::keyexchange::TlsClientKeyExchangeContents;
use refusal::{Reason, Refusal};
use registry::handshake::{CLIENT_KEY_EXCHANGE, FINISHED, HELLO_REQUEST};
use wire::number::Width;
use wire::view::View;
use write_rules::TextAnswer;

// How a part stands in a body: as it is, or behind its length.
#[derive(Clone, Copy)]
enum Form {
    Raw,
    DiffieHellman,
    EllipticCurve,
}

// The form that has that number in `message::keyexchange`.
// stays: `TryFrom` would need an error type, for what is BadLength at once
fn form_of(number: usize) -> Option<Form>
    ensures { (p : List ℕ) → form_text number p ≡ told_text result p }
{
    match number {
        keyexchange::RAW => Some(Form::Raw),
        keyexchange::DIFFIE_HELLMAN => Some(Form::DiffieHellman),
        keyexchange::ELLIPTIC_CURVE => Some(Form::EllipticCurve),
        _ => None,
    }
}

// A message whose body is the part.
// stays: `let _` drops answers that are known, since there is room; `?` would hand them on.
fn gen_whole(msg_type: u8, part: &[u8], out: &mut [u8]) -> TextAnswer
    ensures answer_value { as_answer result.answer ≡ room (message_text (head_text msg_type) (Answer.accepted part.now)) 0 out.old }
    ensures len_value { result.len ≡ text_length (message_text (head_text msg_type) (Answer.accepted part.now)) }
    ensures out_after { out.new ≡ written (message_text (head_text msg_type) (Answer.accepted part.now)) 0 out.old }
{
    if !wire::number::width_holds(Width::Three, part.len()) {
        return TextAnswer::refused(Reason::BadLength);
    }
    let len = 4 + part.len();
    match wire::output::room_for(out, 0, len) {
        Err(r) => TextAnswer {
            answer: Err(r),
            len,
        },
        Ok(p) => {
            let _ = wire::output::gen_bytes(&mut out[4..], 0, part);
            let _ = write_rules::gen_head(out, msg_type, part.len());
            TextAnswer {
                answer: Ok(p.next),
                len,
            }
        }
    }
}

// A message whose body is the part behind its length.
// stays: `let _` drops answers that are known, since there is room; `?` would hand them on.
fn gen_sized(msg_type: u8, w: Width, part: &[u8], out: &mut [u8]) -> TextAnswer
    requires { bytes_in w ≤ 2 }
    ensures answer_value { as_answer result.answer ≡ room (message_text (head_text msg_type) (field_text (sized (bytes_in w)) part.now)) 0 out.old }
    ensures len_value { result.len ≡ text_length (message_text (head_text msg_type) (field_text (sized (bytes_in w)) part.now)) }
    ensures out_after { out.new ≡ written (message_text (head_text msg_type) (field_text (sized (bytes_in w)) part.now)) 0 out.old }
{
    if !field::may_follow(w, RuleName::Plain, part.len()) {
        return TextAnswer::refused(Reason::BadLength);
    }
    let n = wire::number::width_bytes(w) + part.len();
    let len = 4 + n;
    match wire::output::room_for(out, 0, len) {
        Err(r) => TextAnswer {
            answer: Err(r),
            len,
        },
        Ok(place) => {
            let _ = field::gen_length_data(&mut out[4..], 0, w, RuleName::Plain, part);
            let _ = write_rules::gen_head(out, msg_type, n);
            TextAnswer {
                answer: Ok(place.next),
                len,
            }
        }
    }
}

// A message whose body is the part in that form.
fn gen_form(msg_type: u8, form: Form, part: &[u8], out: &mut [u8]) -> TextAnswer
    ensures answer_value { as_answer result.answer ≡ room (message_text (head_text msg_type) (part_text form part.now)) 0 out.old }
    ensures len_value { result.len ≡ text_length (message_text (head_text msg_type) (part_text form part.now)) }
    ensures out_after { out.new ≡ written (message_text (head_text msg_type) (part_text form part.now)) 0 out.old }
{
    match form {
        Form::Raw => gen_whole(msg_type, part, out),
        Form::DiffieHellman => gen_sized(msg_type, Width::Two, part, out),
        Form::EllipticCurve => gen_sized(msg_type, Width::One, part, out),
    }
}

// Writes a ClientKeyExchange of the form that has that number in `message::keyexchange`, its part
// handed over: BadLength, also of any other number, then NoRoom. A refusal changes no byte; with
// NoRoom the length that the message needs is told.
// stays: the form is a number here, as `norrabist_gen_tls_clientkeyexchange` has it of C.
pub fn gen_clientkeyexchange(form: usize, part: &[u8], out: &mut [u8]) -> TextAnswer
    ensures answer_value { as_answer result.answer ≡ room (message_text (head_text client_key_exchange_type) (form_text form part.now)) 0 out.old }
    ensures len_value { result.len ≡ text_length (message_text (head_text client_key_exchange_type) (form_text form part.now)) }
    ensures out_after { out.new ≡ written (message_text (head_text client_key_exchange_type) (form_text form part.now)) 0 out.old }
{
    match form_of(form) {
        Some(form) => gen_form(CLIENT_KEY_EXCHANGE, form, part, out),
        None => TextAnswer::refused(Reason::BadLength),
    }
}

// Writes a Finished, its part handed over: BadLength, then NoRoom. A refusal changes no byte; with
// NoRoom the length that the message needs is told.
pub fn gen_finished(part: &[u8], out: &mut [u8]) -> TextAnswer
    ensures answer_value { as_answer result.answer ≡ room (message_text (head_text finished_type) (Answer.accepted part.now)) 0 out.old }
    ensures len_value { result.len ≡ text_length (message_text (head_text finished_type) (Answer.accepted part.now)) }
    ensures out_after { out.new ≡ written (message_text (head_text finished_type) (Answer.accepted part.now)) 0 out.old }
{
    gen_whole(FINISHED, part, out)
}

// A message whose body is the part that `v` names in that form.
fn gen_view(msg_type: u8, form: Form, v: View, i: &[u8], out: &mut [u8]) -> Result<usize, Refusal>
    ensures result_value { as_answer result ≡ room (message_text (head_text msg_type) (then (view_text i.now v) (part_text form))) 0 out.old }
    ensures out_after { out.new ≡ written (message_text (head_text msg_type) (then (view_text i.now v) (part_text form))) 0 out.old }
{
    if !write_rules::lies_in(i, v) {
        return Err(refusal::unplaced(Reason::BadLength));
    }
    gen_form(msg_type, form, wire::view::part_of(i, v), out).answer
}

// Writes a ClientKeyExchange: BadLength, then NoRoom. A refusal changes no byte.
// stays: a `match` by the kind is plainer than functions in a table
pub fn gen_tls_clientkeyexchange(
    m: TlsClientKeyExchangeContents,
    i: &[u8],
    out: &mut [u8],
) -> Result<usize, Refusal>
    ensures result_value { as_answer result ≡ room (message_text (head_text client_key_exchange_type) (exchange_text i.now m)) 0 out.old }
    ensures out_after { out.new ≡ written (message_text (head_text client_key_exchange_type) (exchange_text i.now m)) 0 out.old }
{
    let (form, v) = match m {
        TlsClientKeyExchangeContents::Unknown(v) => (Form::Raw, v),
        TlsClientKeyExchangeContents::Dh(v) => (Form::DiffieHellman, v),
        TlsClientKeyExchangeContents::Ecdh(v) => (Form::EllipticCurve, v),
    };
    gen_view(CLIENT_KEY_EXCHANGE, form, v, i, out)
}

// Writes a HelloRequest, four bytes, or answers NoRoom. A refusal changes no byte.
pub fn gen_tls_hellorequest(out: &mut [u8]) -> Result<usize, Refusal>
    ensures result_value { as_answer result ≡ room (message_text (head_text hello_request_type) (Answer.accepted [])) 0 out.old }
    ensures out_after { out.new ≡ written (message_text (head_text hello_request_type) (Answer.accepted [])) 0 out.old }
{
    write_rules::gen_head(out, HELLO_REQUEST, 0)
}

// Writes a Finished: BadLength, then NoRoom. A refusal changes no byte.
pub fn gen_tls_finished(m: View, i: &[u8], out: &mut [u8]) -> Result<usize, Refusal>
    ensures result_value { as_answer result ≡ room (message_text (head_text finished_type) (view_text i.now m)) 0 out.old }
    ensures out_after { out.new ≡ written (message_text (head_text finished_type) (view_text i.now m)) 0 out.old }
{
    gen_view(FINISHED, Form::Raw, m, i, out)
}
