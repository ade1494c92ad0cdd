//! The methods of an entry.

ghost use Rattle.std.specs.Prelude.{◌≡◌};
ghost use Rattle.coap_path.specs.Prelude.{is_method as is_method_code, has_method as has_code};
ghost use Rattle.coap_path.specs.Prelude.{are_methods as is_list};

use coap_wire::Code;

/// Returns `true` if a code is a method: class 0, but not Empty (RFC 7252 section 12.1.1).
fn is_method(code: Code) -> bool
    ensures { result ≡ is_method_code code }
{
    code.class() == 0 && code.detail() != 0
}

/// Returns `true` if the list has this code.
pub(crate) fn has_method(methods: &[Code], code: Code) -> bool
    ensures { result ≡ has_code methods.now code }
{
    methods.contains(&code)
}

/// Returns `true` if an entry can have these methods: at least one, none twice, and no other code.
#[tactic(auto, unfolding(crate::specs::Methods::are_methods))]
pub(crate) fn are_methods(methods: &[Code]) -> bool
    ensures { result ≡ is_list methods.now }
{
    if methods.is_empty() {
        return false;
    }
    for i in 0..methods.len() {
        if !is_method(methods[i]) || has_method(&methods[i + 1..], methods[i]) {
            return false;
        }
    }
    true
}
