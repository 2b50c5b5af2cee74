//! Phrases of the grammars, which are what is left to be read of a document.

use graphql_schemas::types::Word;

/// A punctuator.
#[derive(Clone, Copy)]
pub enum Mark {
    /// `!`
    Bang,
    /// `&`
    And,
    /// `(`
    OpenParen,
    /// `)`
    CloseParen,
    /// `...`
    Dots,
    /// `:`
    Colon,
    /// `=`
    Equals,
    /// `@`
    At,
    /// `[`
    OpenBracket,
    /// `]`
    CloseBracket,
    /// `{`
    OpenBrace,
    /// `|`
    Bar,
    /// `}`
    CloseBrace,
}

/// A keyword that stands where nothing else can, or before something of its own.
#[derive(Clone, Copy)]
pub enum Keyword {
    Directive,
    Enum,
    Extend,
    Fragment,
    Implements,
    Input,
    Interface,
    On,
    Repeatable,
    Scalar,
    Schema,
    Type,
    Union,
}

/// A phrase of a grammar. Where it says `variables`, it says whether a value may be a variable; `levels` are how many
/// lists and objects, lists of a type, or selection sets may nest in it.
#[derive(Clone, Copy)]
pub enum Phrase {
    /// This punctuator.
    Mark(Mark),
    /// This keyword.
    Keyword(Keyword),
    /// `Name`
    Name,
    /// `FragmentName`: a name but `on`.
    FragmentName,
    /// `EnumValue`: a name but `true`, `false` and `null`.
    EnumName,
    /// `DirectiveLocation`: one of the 19 words.
    Location,
    /// `Description : StringValue`
    Text,
    /// `OperationType : 'query' | 'mutation' | 'subscription'`
    OperationType,
    /// The `$` of a variable.
    Dollar { variables: bool },
    /// `IntValue | FloatValue | StringValue`
    Literal,
    /// The end of the text.
    End,
    /// What would go deeper than is allowed: no token is taken.
    TooDeep,
    /// What no token begins.
    Never,

    /// This punctuator, or nothing.
    MaybeMark(Mark),
    /// `'repeatable'?`
    MaybeRepeatable,
    /// `Name?`
    MaybeName,

    /// `Value`
    Value { variables: bool, levels: usize },
    /// One in which as many levels may nest as the limits allow.
    OwnValue { variables: bool },
    /// A value that is neither a list nor an object.
    Simple { variables: bool },
    /// One that is no name either.
    Unnamed { variables: bool },
    /// `ListValue | ObjectValue`
    Bracketed { variables: bool, levels: usize },
    /// `Value*`
    Values { variables: bool, levels: usize },
    /// `ObjectField*`, where `ObjectField : Name ':' Value`
    ObjectFields { variables: bool, levels: usize },
    /// `Argument*`, where `Argument : Name ':' Value`
    Arguments { variables: bool },
    /// `Arguments?`, where `Arguments : '(' Argument+ ')'`
    MaybeArguments { variables: bool },
    /// `Directive*`, where `Directive : '@' Name Arguments?`
    Directives { variables: bool },
    /// `DefaultValue?`, where `DefaultValue : '=' Value[Const]`
    MaybeDefault,
    /// `Type : Name '!'? | '[' Type ']' '!'?`
    Type { levels: usize },
    /// One in which as many lists may nest as the limits allow.
    OwnType,

    /// `VariableDefinitions?`, where `VariableDefinitions : '(' VariableDefinition+ ')'`
    MaybeVariables,
    /// `VariableDefinition : '$' Name ':' Type DefaultValue? Directives?`
    VariableDefinition,
    /// `VariableDefinition*`
    VariableDefinitions,
    /// What stands after the type of a variable: `DefaultValue? Directives?`, in either order.
    AfterType,
    /// `SelectionSet : '{' Selection+ '}'`
    Set { levels: usize },
    /// One in which as many sets may nest as the limits allow.
    OwnSet,
    /// `Selection*`
    Selections { levels: usize },
    /// `Selection : Field | FragmentSpread | InlineFragment`
    Selection { levels: usize },
    /// What stands after the first name of a field, if that is an alias: `(':' Name)?`
    MaybeAliased,
    /// `SelectionSet?`
    MaybeSet { levels: usize },
    /// What stands after `...`.
    AfterDots { levels: usize },
    /// What stands after the `...` of an inline fragment: `TypeCondition? Directives? SelectionSet`
    Inline { levels: usize },
    /// `TypeCondition?`, where `TypeCondition : 'on' Name`
    MaybeCondition,
    /// `OperationDefinition | FragmentDefinition`
    RequestDefinition,
    /// One that begins with a keyword.
    WordedDefinition,
    /// Any number of them.
    RequestDefinitions,

    /// `TypeSystemDefinition | TypeSystemExtension`
    SchemaDefinition,
    /// Any number of them.
    SchemaDefinitions,
    /// What stands after `extend`.
    Extended,
    /// What an extension of a schema has at least one of: `Directives[Const]? ('{' RootOperationTypeDefinition+ '}')?`
    RootParts,
    /// A definition without its description.
    Undescribed,
    /// One that is of no schema.
    NoSchema,
    /// From the keyword of a type on.
    TypeBody { extend: bool },
    /// What stands after the name of a type.
    Rest { extend: bool, word: Word },
    /// `ImplementsInterfaces?`, where `ImplementsInterfaces : 'implements' '&'? Name ('&' Name)*`
    MaybeImplements,
    /// `('&' Name)*`, or with another mark
    Names(Mark),
    /// `FieldsDefinition?`, where `FieldsDefinition : '{' FieldDefinition+ '}'`
    MaybeFields,
    /// `FieldDefinition : Description? Name ArgumentsDefinition? ':' Type Directives[Const]?`
    FieldDefinition,
    /// `FieldDefinition*`
    FieldDefinitions,
    /// `UnionMemberTypes?`, where `UnionMemberTypes : '=' '|'? Name ('|' Name)*`
    MaybeMembers,
    /// `EnumValuesDefinition?`, where `EnumValuesDefinition : '{' EnumValueDefinition+ '}'`
    MaybeEnumValues,
    /// `EnumValueDefinition : Description? EnumValue Directives[Const]?`
    EnumValueDefinition,
    /// `EnumValueDefinition*`
    EnumValueDefinitions,
    /// `InputFieldsDefinition?`, where `InputFieldsDefinition : '{' InputValueDefinition+ '}'`
    MaybeInputFields,
    /// `InputValueDefinition : Description? Name ':' Type DefaultValue? Directives[Const]?`
    InputValueDefinition,
    /// `InputValueDefinition*`
    InputValueDefinitions,
    /// `ArgumentsDefinition?`, where `ArgumentsDefinition : '(' InputValueDefinition+ ')'`
    MaybeArgumentsDefinition,
    /// `('{' RootOperationTypeDefinition+ '}')?`
    MaybeRoots,
    /// `RootOperationTypeDefinition : OperationType ':' Name`
    Root,
    /// `RootOperationTypeDefinition*`
    Roots,
    /// `Description?`
    MaybeDescription,
    /// `('|' DirectiveLocation)*`
    Locations,
}
