//! The samples: for each kind of token that a grammar knows the text of one, and what a person calls it.

/// The text of one token, and what it is called.
pub type Sample = (&'static str, &'static str);

/// The text of a name that is no keyword.
pub const NAME_TEXT: &str = "a";

/// What a name is called.
pub const NAME: &str = "a name";

/// What a number is called.
pub const NUMBER: &str = "a number";

/// What a location of a directive is called.
pub const LOCATION: &str = "a location such as \"FIELD\" or \"OBJECT\"";

/// What a name and all literals are called together.
pub const VALUE: &str = "a value";

/// What the end of the text is called.
pub const END: &str = "the end of the text";

/// The text of a number, which stands wherever a value may begin, and nowhere else.
pub const NUMBER_TEXT: &str = "0";

/// What a value may begin with that is neither a variable nor a name. A block string stands wherever a string does.
pub const LITERALS: [Sample; 4] = [
    (NUMBER_TEXT, NUMBER),
    ("\"\"", "a string"),
    ("[", "\"[\""),
    ("{", "\"{\""),
];

/// The other punctuators.
pub const PUNCTUATORS: [Sample; 12] = [
    ("!", "\"!\""),
    ("$", "\"$\""),
    ("&", "\"&\""),
    ("(", "\"(\""),
    (")", "\")\""),
    ("...", "\"...\""),
    (":", "\":\""),
    ("=", "\"=\""),
    ("@", "\"@\""),
    ("]", "\"]\""),
    ("|", "\"|\""),
    ("}", "\"}\""),
];

/// The keywords of both languages. Where `true`, `false` and `null` are values a name is one too. Nineteen words are
/// locations of directives, and where one of them stands each of them does.
pub const KEYWORDS: [Sample; 17] = [
    ("directive", "\"directive\""),
    ("enum", "\"enum\""),
    ("extend", "\"extend\""),
    ("fragment", "\"fragment\""),
    ("implements", "\"implements\""),
    ("input", "\"input\""),
    ("interface", "\"interface\""),
    ("mutation", "\"mutation\""),
    ("on", "\"on\""),
    ("query", "\"query\""),
    ("repeatable", "\"repeatable\""),
    ("scalar", "\"scalar\""),
    ("schema", "\"schema\""),
    ("subscription", "\"subscription\""),
    ("type", "\"type\""),
    ("union", "\"union\""),
    ("FIELD", LOCATION),
];
