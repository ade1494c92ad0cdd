//! The wait after a turn.

ghost use Rattle.std.specs.Prelude.{◌≡◌};
ghost use Rattle.coap_serve.specs.Prelude.{limit_for as limit_in, wait_within as within};

use coap_io::Wait;

/// Returns the limit of the wait: no wait if the application may have more later responses.
pub(super) fn limit_for(is_full: bool, limit: Wait) -> Wait
    ensures { result ≡ limit_in is_full limit }
{
    if is_full { Wait::No } else { limit }
}

/// Returns the wait, but at most `limit`.
pub(super) fn wait_within(limit: Wait, wait: Wait) -> Wait
    ensures { result ≡ within limit wait }
{
    match limit {
        Wait::No => Wait::No,
        Wait::Until(moment) => wait.at_most(moment),
        Wait::Forever => wait,
    }
}
