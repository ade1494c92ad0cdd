//! Messages of a request for a target, and of the cancellation of an observation.

ghost use Rattle.std.specs.Prelude.{◌≡◌, ◌≤◌, ◌<◌, ◌+◌, ◌++◌, false, [], ◌∷◌, Some, None, length, option_map};
ghost use Rattle.std.specs.Prelude.{option_copied, IfSome, if◌then◌else◌};
ghost use Rattle.coap_client_request.specs.Prelude.{AllByRecursion, last_number, coap_options, with_option};
ghost use Rattle.coap_client_request.specs.Prelude.{AreFormatsOf};
ghost use Rattle.coap_client_request.specs.Prelude.{IsRow, extras_value, given_option, IsShort, byte_lists};
ghost use Rattle.coap_client_request.specs.Prelude.{MAX_EXTENDED_LENGTH};
ghost use Rattle.coap_client_request.specs.Requests as spec;

use crate::target::Target;
use arrayvec::ArrayVec;
use coap_wire::option_numbers::{ACCEPT, CONTENT_FORMAT, OBSERVE, URI_HOST, URI_PATH, URI_QUERY};
use coap_wire::{Builder, Code, LARGEST_MESSAGE, OptionRef, TokenRef, UintBytes, uint_bytes};

/// Maximum number of options of a request: Uri-Host, Observe, 16 Uri-Path, Content-Format, 16 Uri-Query, Accept and an
/// extra one.
const MAX_OPTIONS: usize = 37;

/// Maximum length of the extra option, in bytes.
const MAX_EXTRA: usize = 1_034;

/// Value 1 of Observe, which cancels an observation (RFC 7641 section 3.6).
const DEREGISTER: &[u8] = &[1];

/// Method of a request (RFC 7252 section 5.8).
#[derive(Clone, Copy, Debug, PartialEq, Eq)]
pub enum Method {
    /// GET, which asks for a representation.
    Get,
    /// PUT, which stores the payload under the path.
    Put,
    /// POST, which hands the payload to the resource.
    Post,
    /// DELETE, which removes the resource.
    Delete,
}

/// Properties of a request besides its method and its target. By default, a request has none of them.
#[derive(Clone, Copy, Default)]
pub struct Extras<'a> {
    /// Registration as an observer of the target (RFC 7641 section 3.1). A registration is a GET, which no call checks.
    pub observe: bool,
    /// Omission of Uri-Host, whatever the host is.
    pub plain: bool,
    /// Content-Format of the payload (RFC 7252 section 5.10.3).
    pub content_format: Option<u16>,
    /// Content-Format in the Accept option (RFC 7252 section 5.10.4).
    pub accept: Option<u16>,
    /// Number and value of an extra option. A value of more than 1,034 bytes is never sent.
    pub option: Option<(u16, &'a [u8])>,
    /// Payload, empty if there is none. A payload of more than 1,048,576 bytes is never sent.
    pub payload: &'a [u8],
}

/// Encoded content formats of a request, as returned by `formats_of`.
#[derive(Drop)]
pub struct Formats {
    content_format: Option<UintBytes>,
    accept: Option<UintBytes>,
}

/// Options of a request, in the order of their numbers.
type OptionList<'a> = ArrayVec<OptionRef<'a>, MAX_OPTIONS>;

/// Returns the encoded content formats of the extras. The messages of a request and of its cancellation borrow them.
pub fn formats_of(extras: &Extras) -> Formats
    ensures { AreFormatsOf (extras_value extras.now) result }
{
    Formats {
        content_format: number_bytes(extras.content_format),
        accept: number_bytes(extras.accept),
    }
}

/// Returns the request with a method, a target and extras, without a token.
///
/// Returns `None` if and only if the extra option has more than 1,034 bytes or the payload more than 1,048,576.
///
/// # Preconditions
///
/// `formats` is the result of `formats_of` for these extras.
pub fn request_message<'a>(
    method: Method,
    target: &'a Target,
    extras: &Extras<'a>,
    formats: &'a Formats,
) -> Option<Builder<'a>>
    requires { AreFormatsOf (extras_value extras.now) formats.now }
    ensures { result
        ≡ (if spec.is_too_long (extras_value extras.now) then None else Some
        (spec.request_of method target.now (extras_value extras.now))) }
{
    if is_too_long(extras) {
        return None;
    }
    let options = all_options(target, extras, formats, observe_sent(extras));
    let mut request = built(code_of(method), options.as_slice());
    let Ok(()) = request.payload(extras.payload) else {
        unreachable!()
    };
    Some(request)
}

/// Returns the GET that cancels the observation of a target, without a token (RFC 7641 section 3.6).
///
/// The caller passes the target and the extras of the observation. Observe is 1, and there is no payload. Returns
/// `None` if and only if the extra option has more than 1,034 bytes.
///
/// # Preconditions
///
/// `formats` is the result of `formats_of` for these extras.
pub fn cancellation_message<'a>(
    target: &'a Target,
    extras: &Extras<'a>,
    formats: &'a Formats,
) -> Option<Builder<'a>>
    requires { AreFormatsOf (extras_value extras.now) formats.now }
    ensures { result
        ≡ (if spec.has_long_extra (extras_value extras.now) then None else Some
        (spec.cancel_of target.now (extras_value extras.now))) }
{
    if has_long_extra(extras) {
        return None;
    }
    let options = all_options(target, extras, formats, Some(DEREGISTER));
    Some(built(Code::GET, options.as_slice()))
}

/// Returns the code of a method (RFC 7252 section 5.8).
fn code_of(method: Method) -> Code
    ensures { result ≡ spec.code_of_method method }
{
    match method {
        Method::Get => Code::GET,
        Method::Put => Code::PUT,
        Method::Post => Code::POST,
        Method::Delete => Code::DELETE,
    }
}

/// Returns the shortest encoding of a number, if there is one (RFC 7252 section 3.2).
fn number_bytes(number: Option<u16>) -> Option<UintBytes>
    ensures { option_map (λ bytes. bytes.items) result ≡ spec.uint_sent number }
{
    match number {
        Some(number) => Some(uint_bytes(u64::from(number))),
        None => None,
    }
}

/// Returns `true` if the extra option is too long.
#[tactic(auto, unfolding(crate::specs::Requests::has_long_extra))]
fn has_long_extra(extras: &Extras) -> bool
    ensures { result ≡ spec.has_long_extra (extras_value extras.now) }
{
    match extras.option {
        Some((_, value)) => value.len() > MAX_EXTRA,
        None => false,
    }
}

/// Returns `true` if the extra option or the payload is too long.
#[tactic(auto, unfolding(crate::specs::Requests::is_too_long))]
fn is_too_long(extras: &Extras) -> bool
    ensures { result ≡ spec.is_too_long (extras_value extras.now) }
{
    has_long_extra(extras) || extras.payload.len() > LARGEST_MESSAGE
}

/// Returns the value of Uri-Host, if the option is sent (RFC 7252 section 6.4).
#[tactic(auto, unfolding(crate::specs::Requests::host_sent))]
fn host_sent<'a>(target: &'a Target, extras: &Extras) -> Option<&'a [u8]>
    ensures value { option_copied result ≡ spec.host_sent target.now (extras_value extras.now) }
    ensures short { IfSome result (λ host. length host.now ≤ 255) }
{
    if extras.plain || target.is_address() {
        None
    } else {
        Some(target.host())
    }
}

/// Returns the empty value of Observe if the target is to be observed (RFC 7641 section 2).
#[tactic(auto, unfolding(crate::specs::Requests::observe_sent))]
fn observe_sent(extras: &Extras) -> Option<&'static [u8]>
    ensures value { option_copied result ≡ spec.observe_sent (extras_value extras.now) }
    ensures short { IfSome result (λ value. length value.now ≤ 1) }
{
    if extras.observe { Some(&[]) } else { None }
}

/// Returns the bytes of an optional encoded number.
fn bytes_in(bytes: &Option<UintBytes>) -> Option<&[u8]>
    ensures value { option_copied result ≡ option_map (λ b. b.items) bytes.now }
    ensures short { IfSome result (λ b. length b.now ≤ 8) }
{
    match bytes {
        Some(bytes) => Some(bytes.as_slice()),
        None => None,
    }
}

/// Appends an option. The list must not be full.
fn push<'a>(options: &mut OptionList<'a>, number: u16, value: &'a [u8])
    requires row { IsRow number (coap_options options.old.items) }
    requires short { length value.now ≤ 1034 }
    requires room { length options.old.items < 37 }
    ensures added { coap_options options.new.items
        ≡ coap_options options.old.items ++ record { number = number; value = value.now } ∷ [] }
    ensures row { IsRow number (coap_options options.new.items) }
    ensures count { length options.new.items ≡ length options.old.items + 1 }
{
    options.push(OptionRef { number, value });
}

/// Appends an option if there is a value. The list must not be full.
fn push_one<'a>(options: &mut OptionList<'a>, number: u16, value: Option<&'a [u8]>)
    requires row { IsRow number (coap_options options.old.items) }
    requires short { IfSome value (λ v. length v.now ≤ 1034) }
    requires room { length options.old.items < 37 }
    ensures added { coap_options options.new.items
        ≡ coap_options options.old.items ++ spec.option_with number (option_copied value.entry) }
    ensures row { IsRow number (coap_options options.new.items) }
    ensures count { length options.new.items ≤ length options.old.items + 1 }
{
    if let Some(value) = value {
        push(options, number, value);
    }
}

/// Appends an option for each value.
fn push_each<'a>(options: &mut OptionList<'a>, number: u16, values: &'a [Vec<u8>])
    requires row { IsRow number (coap_options options.old.items) }
    requires short { AllByRecursion IsShort (byte_lists values.now) }
    requires room { length options.old.items + length values.now ≤ 37 }
    ensures added { coap_options options.new.items
        ≡ coap_options options.old.items ++ spec.options_with number (byte_lists values.now) }
    ensures row { IsRow number (coap_options options.new.items) }
    ensures count { length options.new.items ≡ length options.old.items + length values.now }
{
    for value in values {
        push(options, number, value.as_slice());
    }
}

/// Returns Uri-Host, Observe, Uri-Path, Content-Format, Uri-Query and Accept, in the order of their numbers.
fn own_options<'a>(
    target: &'a Target,
    extras: &Extras,
    formats: &'a Formats,
    observe: Option<&'a [u8]>,
) -> OptionList<'a>
    requires formats { AreFormatsOf (extras_value extras.now) formats.now }
    requires short { IfSome observe (λ value. length value.now ≤ 1) }
    ensures value { coap_options result.items
        ≡ spec.own_options target.now (extras_value extras.now) (option_copied observe.entry) }
    ensures row { IsRow 17 (coap_options result.items) }
    ensures few { length result.items ≤ 36 }
{
    let mut options = OptionList::new();
    push_one(&mut options, URI_HOST, host_sent(target, extras));
    push_one(&mut options, OBSERVE, observe);
    push_each(&mut options, URI_PATH, target.segments());
    push_one(
        &mut options,
        CONTENT_FORMAT,
        bytes_in(&formats.content_format),
    );
    push_each(&mut options, URI_QUERY, target.arguments());
    push_one(&mut options, ACCEPT, bytes_in(&formats.accept));
    options
}

/// Inserts the extra option after those with its number or a lower one.
fn insert<'a>(options: &mut OptionList<'a>, number: u16, value: &'a [u8])
    requires row { IsRow 17 (coap_options options.old.items) }
    requires short { length value.now ≤ 1034 }
    requires room { length options.old.items ≤ 36 }
    ensures added { coap_options options.new.items
        ≡ spec.insert_option (record { number = number; value = value.now }) (coap_options options.old.items) }
    ensures row { IsRow 65535 (coap_options options.new.items) }
    ensures count { length options.new.items ≤ 37 }
{
    let place = options
        .iter()
        .position(|option| option.number > number)
        .unwrap_or(options.len());
    options.insert(place, OptionRef { number, value });
}

/// Returns the options of a request, including the extra option.
#[tactic(auto, unfolding(crate::specs::Requests::with_extra))]
fn all_options<'a>(
    target: &'a Target,
    extras: &Extras<'a>,
    formats: &'a Formats,
    observe: Option<&'a [u8]>,
) -> OptionList<'a>
    requires formats { AreFormatsOf (extras_value extras.now) formats.now }
    requires observe { IfSome observe (λ value. length value.now ≤ 1) }
    requires short { spec.has_long_extra (extras_value extras.now) ≡ false }
    ensures value { coap_options result.items
        ≡ spec.with_extra (extras_value extras.now).extra
        (spec.own_options target.now (extras_value extras.now) (option_copied observe.entry)) }
    ensures row { IsRow 65535 (coap_options result.items) }
    ensures few { length result.items ≤ 37 }
{
    let mut options = own_options(target, extras, formats, observe);
    if let Some((number, value)) = extras.option {
        insert(&mut options, number, value);
    }
    options
}

/// Appends an option to a message that has room for it and no option with a higher number.
fn add<'a>(message: &mut Builder<'a>, number: u16, value: &'a [u8])
    requires order { last_number 0 message.old.options ≤ number }
    requires few { length message.old.options < 40 }
    requires short { length value.now ≤ MAX_EXTENDED_LENGTH }
    ensures { message.new ≡ with_option message.old number value.now }
{
    let Ok(()) = message.option(number, value) else {
        unreachable!()
    };
}

/// Returns the message with this code and these options, without token and payload.
fn built<'a>(code: Code, options: &[OptionRef<'a>]) -> Builder<'a>
    requires row { IsRow 65535 (coap_options options.now) }
    requires few { length options.now ≤ 37 }
    ensures { result ≡ record { code = code; token = []; options = coap_options options.now; payload = [] } }
{
    let mut message = Builder::with_token_ref(code, TokenRef::empty());
    for option in options {
        add(&mut message, option.number, option.value);
    }
    message
}
