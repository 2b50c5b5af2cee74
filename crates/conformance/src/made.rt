//! Values that programs make: limits, sets of selections, places of directives.
use graphql_parser::Limits;
use graphql_parser::types::{DirectiveLocation, SelectionSet};
use rows::{Shown, limits_of};

/// Writes what is said of a value that a program makes.
///
/// - `limits`: whether three numbers are limits, and whether they are the default
/// - `limits shown`: what limits print, and their numbers; and whether a copy is equal
/// - `set`: how many selections a new set has
/// - `locations`: the places where directives may stand, each as it is called and as it prints
pub fn write_made(shown: &mut Shown, what: &str, text: &str) {
    match what {
        "limits" => shown.word(kind_of(limits_of(text))),
        "limits shown" => write_limits(shown, limits_of(text)),
        "set" => shown.item("", &SelectionSet::new(shown.alloc()).items.len()),
        "locations" => write_locations(shown),
        _ => shown.word("nothing to make"),
    }
}

fn kind_of(limits: Option<Limits>) -> &'static str {
    match limits {
        None => "none",
        Some(limits) if limits == Limits::default() => "the default",
        Some(_) => "some",
    }
}

fn write_locations(shown: &mut Shown) {
    for location in LOCATIONS {
        shown.item(" ", &location);
        shown.item("=", &location.as_str());
    }
}

fn write_limits(shown: &mut Shown, limits: Option<Limits>) {
    let Some(limits) = limits else {
        return shown.word("none");
    };
    let copy = limits;
    shown.debugged("", &limits);
    shown.item(" ", &copy.selections());
    shown.item(" ", &copy.values());
    shown.item(" ", &copy.types());
    if copy != limits {
        shown.word(" with another copy");
    }
}

/// The places where directives may stand, in requests and then in schema files.
const LOCATIONS: [DirectiveLocation; 19] = [
    DirectiveLocation::Query,
    DirectiveLocation::Mutation,
    DirectiveLocation::Subscription,
    DirectiveLocation::Field,
    DirectiveLocation::FragmentDefinition,
    DirectiveLocation::FragmentSpread,
    DirectiveLocation::InlineFragment,
    DirectiveLocation::VariableDefinition,
    DirectiveLocation::Schema,
    DirectiveLocation::Scalar,
    DirectiveLocation::Object,
    DirectiveLocation::FieldDefinition,
    DirectiveLocation::ArgumentDefinition,
    DirectiveLocation::Interface,
    DirectiveLocation::Union,
    DirectiveLocation::Enum,
    DirectiveLocation::EnumValue,
    DirectiveLocation::InputObject,
    DirectiveLocation::InputFieldDefinition,
];
