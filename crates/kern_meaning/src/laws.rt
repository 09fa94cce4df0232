ghost use Rattle.kern_meaning.specs.Typing.{Typing};

use kern_tree::parsed_kernels_keep_limits;
use kern_types::{
    assignments_fit, contributions_fit, declarations_fit, names_keep_their_type, scales_fit,
    scopes_only_grow,
};

/// For a typed kernel each particle and each item have exactly one answer: contributions, or a first
/// fault. So a wrong kind, a wrong scale or a name without a value is never met.
pub fn typed_kernels_have_one_pair()
    ensures { Typing }
{
    parsed_kernels_keep_limits();
    declarations_fit();
    scopes_only_grow();
    names_keep_their_type();
    scales_fit();
    assignments_fit();
    contributions_fit();
}
