//! The headers of the frames that a server sends.

ghost use Rattle.std.specs.Prelude.{◌≡◌, ◌≤◌, ◌∷◌, [], ◌++◌, ℕ, length, map, codes, decimal, Option, MatchOption, IfOk, OnOk, IsTrue, Some, None, if◌then◌else◌};
ghost use Rattle.std.specs.List.{AllByRecursion, list_any};
ghost use Rattle.std.specs.Option.{option_map};
ghost use Rattle.std.specs.Str.{bytes_eq};
ghost use Rattle.stomp_frame.specs.Headers.{IsText, IsPair, first_of};
ghost use Rattle.stomp_frame.specs.ServerFrames.{first_entries, withheld, message_id, optional_header, connected_headers, message_headers, error_headers};

use crate::headers::Headers;
use itoa::Buffer;
use std::alloc::Global;
use stomp_escape::{NoMemory, Octets};

/// Octets of the longest message-id: numbers of 20, 10 and 10 digits, and two dots.
const LONGEST_ID: usize = 42;

/// Puts a copy of the name and the value at the end.
fn put(alloc: Global, headers: &mut Headers, name: &[u8], value: &[u8]) -> Result<(), NoMemory>
    requires { IsPair (name.now, value.now) }
    ensures { OnOk result (headers.new ≡ headers.old ++ (name.now, value.now) ∷ []) }
{
    let name = Octets::from_slice(alloc, name)?;
    let value = Octets::from_slice(alloc, value)?;
    headers.push(name, value)
}

/// Puts the header where there is a value.
fn put_optional(
    alloc: Global,
    headers: &mut Headers,
    name: &[u8],
    value: Option<&[u8]>,
) -> Result<(), NoMemory>
    requires { MatchOption value (Unit {0}) (λ v. IsPair (name.now, v.now)) }
    ensures { OnOk result
        (headers.new ≡ headers.old ++ optional_header name.now (option_map (λ v. v.now) value.entry)) }
{
    match value {
        Some(value) => put(alloc, headers, name, value),
        None => Ok(()),
    }
}

/// Whether a MESSAGE doesn't pass on this header of its SEND.
#[inline(always)]
pub(crate) fn is_withheld(name: &[u8]) -> bool
    ensures { result ≡ list_any (λ kept. bytes_eq name.now kept) withheld }
{
    name == b"destination".as_slice()
        || name == b"transaction".as_slice()
        || name == b"receipt".as_slice()
        || name == b"content-length".as_slice()
        || name == b"subscription".as_slice()
        || name == b"message-id".as_slice()
        || name == b"ack".as_slice()
}

/// Whether this header is withheld, or another of its name was put.
fn is_passed_over(headers: &Headers, name: &[u8]) -> bool
    ensures { result ≡ list_any (λ seen. bytes_eq name.now seen)
        (map (λ h. h.0) headers.now ++ withheld) }
{
    is_withheld(name) || headers.first(name).is_some()
}

/// Puts the first entry of each header of the SEND that isn't withheld.
fn put_first_entries(alloc: Global, headers: &mut Headers, sent: &Headers) -> Result<(), NoMemory>
    requires { AllByRecursion (λ h. IsTrue (list_any (λ kept. bytes_eq h.0 kept) withheld))
        headers.old }
    ensures { OnOk result (headers.new ≡ headers.old ++ first_entries withheld sent.now) }
{
    for i in 0..sent.len() {
        let (name, value) = sent.pair(i);
        if !is_passed_over(headers, name) {
            put(alloc, headers, name, value)?;
        }
    }
    Ok(())
}

/// A message's id: the number and the topic of its stamp and its index, with dots between them.
pub(crate) fn message_id(alloc: Global, n: u64, topic: u32, index: u32) -> Result<Octets, NoMemory>
    ensures value { IfOk result (λ id. id ≡ message_id n topic index) }
    ensures text { IfOk result (λ id. IsText id) }
{
    let mut digits = Buffer::new();
    let mut id = Octets::with_capacity(alloc, LONGEST_ID)?;
    id.extend(digits.format(n).as_bytes())?;
    id.push(b'.')?;
    id.extend(digits.format(topic).as_bytes())?;
    id.push(b'.')?;
    id.extend(digits.format(index).as_bytes())?;
    Ok(id)
}

/// The headers of the MESSAGE of a SEND that has these headers, and a body of this length.
pub(crate) fn message_headers(
    alloc: Global,
    subscription: &[u8],
    id: &[u8],
    sent: &Headers,
    length: usize,
) -> Result<Headers, NoMemory>
    requires subscription { IsText subscription.now }
    requires id { IsText id.now }
    ensures value { IfOk result
        (λ h. h ≡ message_headers subscription.now id.now sent.now length) }
    ensures pairs { IfOk result (λ h. AllByRecursion IsPair h) }
{
    let mut digits = Buffer::new();
    let mut headers = Headers::new(alloc);
    put(alloc, &mut headers, b"subscription", subscription)?;
    put(alloc, &mut headers, b"message-id", id)?;
    put_optional(
        alloc,
        &mut headers,
        b"destination",
        sent.first(b"destination"),
    )?;
    put(
        alloc,
        &mut headers,
        b"content-length",
        digits.format(length).as_bytes(),
    )?;
    put_first_entries(alloc, &mut headers, sent)?;
    Ok(headers)
}

/// The headers of a CONNECTED.
pub(crate) fn connected_headers(alloc: Global) -> Result<Headers, NoMemory>
    ensures { IfOk result (λ h. h ≡ connected_headers) }
{
    let mut headers = Headers::new(alloc);
    put(alloc, &mut headers, b"version", b"1.2")?;
    put(alloc, &mut headers, b"heart-beat", b"0,0")?;
    Ok(headers)
}

/// The header of a RECEIPT.
pub(crate) fn receipt_headers(alloc: Global, id: &[u8]) -> Result<Headers, NoMemory>
    requires { IsText id.now }
    ensures { IfOk result (λ h. h ≡ (codes "receipt-id", id.now) ∷ []) }
{
    let mut headers = Headers::new(alloc);
    put(alloc, &mut headers, b"receipt-id", id)?;
    Ok(headers)
}

/// The headers of an ERROR.
pub(crate) fn error_headers(
    alloc: Global,
    message: &[u8],
    receipt: Option<&[u8]>,
    version: bool,
) -> Result<Headers, NoMemory>
    requires message { IsText message.now }
    requires receipt { MatchOption receipt (Unit {0}) (λ r. IsText r.now) }
    ensures { IfOk result
        (λ h. h ≡ error_headers message.now (option_map (λ r. r.now) receipt.entry) version) }
{
    let mut headers = Headers::new(alloc);
    put(alloc, &mut headers, b"message", message)?;
    put_optional(alloc, &mut headers, b"receipt-id", receipt)?;
    let supported = if version {
        Some(b"1.2".as_slice())
    } else {
        None
    };
    put_optional(alloc, &mut headers, b"version", supported)?;
    put(alloc, &mut headers, b"content-length", b"0")?;
    Ok(headers)
}
