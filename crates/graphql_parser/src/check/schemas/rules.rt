//! What the rules of schema files look at, and what they say of it (GraphQL October 2021, section 3.3.1).
ghost use Rattle.std.specs.Prelude.{◌≡◌, ◌||◌, cond, Some, None, [], ◌∷◌, ◌++◌, List};
ghost use Rattle.graphql_parser.specs.SchemaRules.{head_of, has_kind, roots_of};
ghost use Rattle.graphql_schemas.specs.grammar.Rules.{same_kind};
ghost use Rattle.graphql_schemas.specs.grammar.Schema.{Root as SpecRoot, Schema as SpecSchema};
ghost use Rattle.graphql_schemas.specs.reading.Finished.{breach_of_schema};
ghost use Rattle.graphql_tokens.specs.declared.pos.Positioned.{Positioned};

use graphql_grammar::error::Error;
use graphql_syntax::pos::Pos;
use graphql_syntax::types::OperationType;

/// A root of a schema.
#[derive(Clone, Copy)]
pub struct Root {
    /// The kind of its operations.
    pub kind: OperationType,
    /// The place of its keyword.
    pub pos: Pos,
}

/// Which kinds of roots a schema has, and the first root whose kind one before it has.
#[derive(Clone, Copy)]
pub struct Roots {
    query: bool,
    mutation: bool,
    subscription: bool,
    repeated: Option<Root>,
}

/// Whether a root of this kind is there, with one root more of another kind or of the same.
fn is_met(before: bool, kind: OperationType, last: OperationType) -> bool
    ensures { result ≡ (before || same_kind kind last) }
{
    before
        || match (kind, last) {
            (OperationType::Query, OperationType::Query) => true,
            (OperationType::Mutation, OperationType::Mutation) => true,
            (OperationType::Subscription, OperationType::Subscription) => true,
            _ => false,
        }
}

impl Roots {
    /// Where there are none.
    pub fn new() -> Roots
        ensures { result ≡ roots_of [] }
    {
        Roots {
            query: false,
            mutation: false,
            subscription: false,
            repeated: None,
        }
    }

    /// Whether there is a root of this kind.
    fn has(self, kind: OperationType) -> bool
        ensures { (roots : List SpecRoot) → self ≡ roots_of roots → result ≡ has_kind kind roots }
    {
        match kind {
            OperationType::Query => self.query,
            OperationType::Mutation => self.mutation,
            OperationType::Subscription => self.subscription,
        }
    }

    /// This root, if another of its kind is there.
    fn again(self, root: Root) -> Option<Root>
        ensures { (roots : List SpecRoot) → self ≡ roots_of roots →
            result ≡ cond (has_kind root.kind roots) (Some root) None }
    {
        if self.has(root.kind) {
            return Some(root);
        }
        None
    }

    /// With one root more at the end.
    pub fn with(self, root: Root) -> Roots
        ensures { (roots : List SpecRoot) (last : SpecRoot) → self ≡ roots_of roots →
            root ≡ head_of last → result ≡ roots_of (roots ++ last ∷ []) }
    {
        Roots {
            query: is_met(self.query, OperationType::Query, root.kind),
            mutation: is_met(self.mutation, OperationType::Mutation, root.kind),
            subscription: is_met(self.subscription, OperationType::Subscription, root.kind),
            repeated: self.repeated.or(self.again(root)),
        }
    }

    /// The rule that a definition or an extension with these roots breaks, if it breaks one: a kind of root comes once,
    /// and only an extension may leave the query root out.
    pub fn breach(self, schema: Pos, extend: bool) -> Option<Error>
        ensures { (s : Positioned SpecSchema) → schema ≡ s.pos → extend ≡ s.node.extend →
            self ≡ roots_of s.node.roots → result ≡ breach_of_schema s }
    {
        if let Some(root) = self.repeated {
            return Some(Error::MultipleRoots {
                root: root.kind,
                schema,
                pos: root.pos,
            });
        }
        if self.query || extend {
            return None;
        }
        Some(Error::MissingQueryRoot { pos: schema })
    }
}
