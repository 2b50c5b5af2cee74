//! The rules that the definitions of a schema file keep, and the document that they make.
ghost use Rattle.std.specs.Prelude.{◌≡◌, ◌≢◌, ◌*◌, [], List, Err, vec_len};
ghost use Rattle.graphql_memory.specs.Memory.{Refused, Takes, bytes};
ghost use Rattle.graphql_schemas.specs.reading.Funds.{definition_row};
ghost use Rattle.graphql_grammar.specs.declared.error.Error.TheVariants.{OutOfMemory};
ghost use Rattle.graphql_syntax.specs.trees.Parts.{placed};
ghost use Rattle.graphql_schemas.specs.grammar.Schema.{Root as SpecRoot};
ghost use Rattle.graphql_schemas.specs.grammar.Schemas.{schemas};
ghost use Rattle.graphql_schemas.specs.reading.Finished.{Holds, IsPlaced, IsAdded, AreSorted, IsFinishedSchema, IsFinished};
ghost use Rattle.graphql_schemas.specs.reading.Views.{root_tree, root_trees, schema_tree, definition_tree, definition_trees};
ghost use Rattle.graphql_grammar.specs.reading.DocumentOf.{IsDocumentOf};

use crate::definitions::Definition;
use crate::schema::{Root, Schema};
use graphql_grammar::error::{Error, Result};
use graphql_memory::Memory;
use graphql_syntax::pos::{Pos, Positioned};
use graphql_syntax::types::OperationType;
use graphql_syntax::value::Name;
use graphql_trees::{SchemaDefinition, ServiceDocument, TypeSystemDefinition};

/// The roots of a schema, each under its kind.
#[derive(Drop)]
struct Roots {
    query: Option<Positioned<Name>>,
    mutation: Option<Positioned<Name>>,
    subscription: Option<Positioned<Name>>,
}

/// Puts a root of this schema where those of its kind belong: there may be one.
fn place(found: &mut Option<Positioned<Name>>, root: Root, schema: Pos) -> Result<()>
    ensures { IsPlaced found.old (root_tree root) schema result found.new }
{
    if found.is_some() {
        return Err(Error::MultipleRoots {
            root: root.kind,
            schema,
            pos: root.pos,
        });
    }
    *found = Some(root.name);
    Ok(())
}

impl Roots {
    fn new() -> Roots
        ensures { Holds [] result }
    {
        Roots {
            query: None,
            mutation: None,
            subscription: None,
        }
    }

    /// Adds a root, or reports that its kind was there already.
    fn add(&mut self, root: Root, schema: Pos) -> Result<()>
        ensures { (before : List SpecRoot) → Holds before self.old →
            IsAdded before (root_tree root) schema result self.new }
    {
        match root.kind {
            OperationType::Query => place(&mut self.query, root, schema),
            OperationType::Mutation => place(&mut self.mutation, root, schema),
            OperationType::Subscription => place(&mut self.subscription, root, schema),
        }
    }
}

/// The roots of this schema by their kinds, or the first whose kind another has before it.
fn sorted(roots: Vec<Root>, schema: Pos) -> Result<Roots>
    ensures { AreSorted (root_trees roots.items) schema result }
{
    let mut sorted = Roots::new();
    for root in roots {
        sorted.add(root, schema)?;
    }
    Ok(sorted)
}

/// A schema as it stands in a document, or the rule that it breaks: a kind of root comes once, and only an extension
/// may leave the query root out.
fn finish_schema(schema: Positioned<Schema>) -> Result<Positioned<SchemaDefinition>>
    ensures finished { IsFinishedSchema (placed schema_tree schema) result }
    ensures takes_none { result ≢ Err OutOfMemory }
{
    let Positioned { pos, node } = schema;
    let Schema {
        description,
        extend,
        directives,
        roots,
    } = node;
    let Roots {
        query,
        mutation,
        subscription,
    } = sorted(roots, pos)?;
    if !extend && query.is_none() {
        return Err(Error::MissingQueryRoot { pos });
    }
    let definition = SchemaDefinition {
        description,
        extend,
        directives,
        query,
        mutation,
        subscription,
    };
    Ok(Positioned::new(definition, pos))
}

/// The definition as it stands in a document, or the rule that it breaks.
fn finish(definition: Definition) -> Result<TypeSystemDefinition>
    ensures finished { IsFinished (definition_tree definition) result }
    ensures takes_none { result ≢ Err OutOfMemory }
{
    match definition {
        Definition::TypeDef(definition) => Ok(TypeSystemDefinition::TypeDef(definition)),
        Definition::Directive(definition) => Ok(TypeSystemDefinition::Directive(definition)),
        Definition::Schema(schema) => Ok(TypeSystemDefinition::Schema(finish_schema(schema)?)),
    }
}

/// The document of a schema file's definitions, or the first of the rules that they break, in source order.
pub fn document_of(memory: &mut Memory, definitions: Vec<Definition>) -> Result<ServiceDocument>
    ensures document { IsDocumentOf schemas (definition_trees definitions.items) result }
    ensures takes { Takes (bytes definition_row * vec_len definitions) memory.old memory.new }
    ensures refused { result ≡ Err OutOfMemory → Refused memory.new }
{
    let mut finished = memory.list_for(&definitions)?;
    for definition in definitions {
        memory.push(&mut finished, finish(definition)?)?;
    }
    Ok(ServiceDocument {
        definitions: finished,
    })
}
