//! The path of a request, segment by segment.

ghost use Rattle.std.specs.Prelude.{◌≡◌};
ghost use Rattle.coap_path.specs.Prelude.{body_path, YieldsFirstBy, item_count};

use coap_wire::option_numbers::URI_PATH;
use coap_wire::{Body, RecognisedOptions};
use std::marker::Model;

/// Iterator over the path of a request: the values of its Uri-Path options, in order (RFC 7252 section 5.10.1). The
/// query does not distinguish resources. Contracts see the list of the remaining segments.
#[derive(Drop)]
pub struct UriPath<'r> {
    /// Remaining recognised options.
    options: RecognisedOptions<'r>,
}

impl<'r> Model for UriPath<'r> {
    ghost use Rattle.coap_path.specs.Paths.{Path};
    ghost use Rattle.coap_path.specs.UriPaths.{uri_segments};

    ghost Value = { Path };

    ghost view = { λ p. uri_segments p.options };
}

impl<'r> UriPath<'r> {
    /// Returns an iterator over the path in the options of a request. It borrows the bytes of the request.
    pub fn of(body: &Body<'r>) -> UriPath<'r>
        ensures { result ≡ body_path body.now }
    {
        UriPath {
            options: body.known(),
        }
    }
}

impl<'r> Iterator for UriPath<'r> {
    type Item = &'r [u8];

    ghost next_gives = { YieldsFirstBy (λ segment. segment.now) (λ segments. segments) };

    ghost remaining = { item_count (λ segments. segments) };

    fn next(&mut self) -> Option<&'r [u8]> {
        while let Some(option) = self.options.next() {
            if option.number == URI_PATH {
                return Some(option.value);
            }
        }
        None
    }
}
