//! The resource that a request names.

ghost use Rattle.std.specs.Prelude.{◌≡◌, take};
ghost use Rattle.directory_core.specs.Prelude.{route_of as route_of_path, lookup_of, location_of, segments};
ghost use Rattle.directory_core.specs.Prelude.{segment_list, decimal_value};

use arrayvec::ArrayVec;
use coap_text::number_in;
use coap_wire::MessageRef;
use coap_wire::option_numbers::URI_PATH;

/// Maximum number of segments that decide which resource a request names.
const MAX_SEGMENTS: usize = 3;

/// Resource of the directory.
#[derive(Clone, Copy)]
pub(crate) enum Route {
    /// `/rd`, where endpoints register.
    Registrations,
    /// `/rd/N`, the location of a registration.
    Location(u64),
    /// `/rd-lookup/ep`.
    Endpoints,
    /// `/rd-lookup/res`.
    Resources,
    /// No resource.
    Elsewhere,
}

/// Returns the kind of lookup with this name.
fn lookup(name: &[u8]) -> Route
    ensures { result ≡ lookup_of name.now }
{
    if name == b"ep".as_slice() {
        return Route::Endpoints;
    }
    if name == b"res".as_slice() {
        return Route::Resources;
    }
    Route::Elsewhere
}

/// Returns the location with this name.
fn location(name: &[u8]) -> Route
    ensures { result ≡ location_of (decimal_value name.now) }
{
    match number_in(name) {
        Some(number) => Route::Location(number),
        None => Route::Elsewhere,
    }
}

/// Returns the resource that a path names.
fn route_of(path: &[&[u8]]) -> Route
    ensures { result ≡ route_of_path (segment_list path.now) }
{
    match path {
        [first] if *first == b"rd".as_slice() => Route::Registrations,
        [first, second] => {
            if *first == b"rd".as_slice() {
                return location(second);
            }
            if *first == b"rd-lookup".as_slice() {
                return lookup(second);
            }
            Route::Elsewhere
        }
        _ => Route::Elsewhere,
    }
}

/// Returns the first three segments of the path of a request.
fn first_segments<'a>(request: &MessageRef<'a>) -> ArrayVec<&'a [u8], MAX_SEGMENTS>
    ensures { segment_list result.items ≡ take 3 (segments request.now.options) }
{
    let mut first = ArrayVec::new();
    for option in request.options() {
        if first.len() == MAX_SEGMENTS {
            return first;
        }
        if option.number == URI_PATH {
            first.push(option.value);
        }
    }
    first
}

/// Returns the resource that a request names.
pub(crate) fn requested_route(request: &MessageRef) -> Route
    ensures { result ≡ route_of_path (segments request.now.options) }
{
    route_of(&first_segments(request))
}
