//! The look-up of an argument by its name, which goes from the first argument on.
ghost use Rattle.std.specs.Prelude.{◌≡◌, option_map};
ghost use Rattle.graphql_syntax.specs.calls.Named.{argument_named};

use crate::pos::Positioned;
use crate::value::Name;

/// The value of the first argument of this name.
pub fn find_argument<'a, V>(arguments: &'a Vec<(Positioned<Name>, V)>, name: &str) -> Option<&'a V>
    ensures { option_map (λ v. v.now) result ≡ argument_named name.now arguments.now.items }
{
    for (key, value) in arguments {
        if key.node.as_str() == name {
            return Some(value);
        }
    }
    None
}
