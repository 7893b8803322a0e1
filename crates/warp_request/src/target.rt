//! The target of a request: its bytes, and its form (RFC 9112, section 3.2).
ghost use Rattle.std.specs.Prelude.{◌≡◌};
ghost use Rattle.std.specs.List.{list_all};
ghost use Rattle.path_rules.specs.Target.{form_of as the_form_of, has_path as has_a_path};
ghost use Rattle.warp_request.specs.Target.{is_visible as is_visible_byte, is_target_form as is_form_of};

use path_rules::{Form, form_of};

/// Whether each byte is visible ASCII.
pub(crate) fn is_visible(target: &[u8]) -> bool
    ensures { result ≡ list_all is_visible_byte target.now }
{
    target.iter().all(|b| *b >= 0x21 && *b <= 0x7e)
}

/// Whether the target has a path.
fn has_path(target: &[u8]) -> bool
    ensures { result ≡ has_a_path (the_form_of target.now) }
{
    !matches!(form_of(target), Form::Neither)
}

/// Whether the target has a form that the method allows.
#[tactic(auto, unfolding(crate::specs::Target::is_target_form))]
pub(crate) fn is_target_form(method: &[u8], target: &[u8]) -> bool
    ensures { result ≡ is_form_of method.now target.now }
{
    has_path(target)
        || method == b"CONNECT".as_slice()
        || (method == b"OPTIONS".as_slice() && target == b"*".as_slice())
}
