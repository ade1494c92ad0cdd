//! The recognised options of a request, collected in one pass.

ghost use Rattle.std.specs.Prelude.{◌≡◌, true, option_copied};
ghost use Rattle.coap_store.specs.Prelude.{first_given, coap_option, nothing, options_after, options_value};

use coap_path::PathMatch;
use coap_wire::OptionRef;
use coap_wire::option_numbers::{
    ACCEPT, CONTENT_FORMAT, ETAG, IF_MATCH, IF_NONE_MATCH, OBSERVE, PROXY_SCHEME, PROXY_URI,
    URI_PATH, URI_QUERY,
};

/// Recognised options of a request: which are present, and the first value of those whose value matters.
#[derive(Drop)]
pub(crate) struct RequestOptions<'r> {
    /// State of matching the path.
    pub matched: PathMatch,
    pub has_if_match: bool,
    pub has_etag: bool,
    pub has_if_none_match: bool,
    pub has_proxy_uri: bool,
    pub has_proxy_scheme: bool,
    pub observe: Option<&'r [u8]>,
    pub content_format: Option<&'r [u8]>,
    pub query: Option<&'r [u8]>,
    pub accept: Option<&'r [u8]>,
}

/// Keeps a value if it is the first.
fn keep_first<'r>(first: &mut Option<&'r [u8]>, value: &'r [u8])
    ensures { option_copied first.new ≡ first_given (option_copied first.old) true value.now }
{
    if first.is_none() {
        *first = Some(value);
    }
}

impl<'r> RequestOptions<'r> {
    /// Returns the state before the first option.
    pub(crate) fn nothing() -> RequestOptions<'r>
        ensures { options_value result ≡ nothing }
    {
        RequestOptions {
            matched: PathMatch::Root,
            has_if_match: false,
            has_etag: false,
            has_if_none_match: false,
            has_proxy_uri: false,
            has_proxy_scheme: false,
            observe: None,
            content_format: None,
            query: None,
            accept: None,
        }
    }

    /// Adds the next recognised option.
    #[tactic(auto, using(crate::proofs::OptionScanLemmas::note_steps), unfolding(crate::specs::OptionScan::options_after))]
    pub(crate) fn note(&mut self, option: &OptionRef<'r>)
        ensures { options_value self.new ≡ options_after (options_value self.old) (coap_option option.now) }
    {
        let value = option.value;
        match option.number {
            URI_PATH => self.matched = self.matched.with(value),
            IF_MATCH => self.has_if_match = true,
            ETAG => self.has_etag = true,
            IF_NONE_MATCH => self.has_if_none_match = true,
            PROXY_URI => self.has_proxy_uri = true,
            PROXY_SCHEME => self.has_proxy_scheme = true,
            OBSERVE => keep_first(&mut self.observe, value),
            CONTENT_FORMAT => keep_first(&mut self.content_format, value),
            URI_QUERY => keep_first(&mut self.query, value),
            ACCEPT => keep_first(&mut self.accept, value),
            _ => {}
        }
    }
}
