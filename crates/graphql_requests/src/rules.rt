//! The definitions of a request, the rules that they keep, and the document that they make.
ghost use Rattle.std.specs.Prelude.{◌≡◌, ◌≢◌, ◌*◌, vec_len, List, Some, None, Err, option_map};
ghost use Rattle.graphql_memory.specs.Memory.{Refused, Takes};
ghost use Rattle.graphql_requests.specs.reading.SelectionFunds.{definition_bytes};
ghost use Rattle.graphql_reading.specs.reading.Worth.{worth};
ghost use Rattle.graphql_grammar.specs.declared.error.Error.TheVariants.{OutOfMemory};
ghost use Rattle.graphql_trees.specs.trees.RequestViews.{operation_tree, fragment_tree};
ghost use Rattle.graphql_syntax.specs.trees.Parts.{placed};
ghost use Rattle.graphql_requests.specs.grammar.Request.{Definition as SpecDefinition, operation as an_operation, fragment as a_fragment};
ghost use Rattle.graphql_grammar.specs.answers.Breaches.{or_else};
ghost use Rattle.graphql_requests.specs.reading.Request.{definitions_at};
ghost use Rattle.graphql_requests.specs.reading.Seeds.{document_seed};
ghost use Rattle.graphql_requests.specs.reading.Sorting.{definition_trees, first_place, IsSorted, IsAdded};
ghost use Rattle.indexmap.specs.IndexMap.{hasher_of, IsEmpty};
ghost use Rattle.graphql_requests.specs.grammar.Requests.{requests};

use crate::definitions::Definition;
use crate::seeds::seed_of;
use graphql_grammar::document::Kept;
use graphql_grammar::error::{Error, Result};
use graphql_memory::Memory;
use graphql_reading::limits::Limits;
use graphql_reading::parser::{Parser, Reading};
use graphql_reading::production::one_or_more;
use graphql_syntax::pos::{Pos, Positioned};
use graphql_syntax::value::Name;
use graphql_trees::{
    DocumentOperations, ExecutableDocument, FragmentDefinition, NameMap, OperationDefinition,
};

/// The definitions so far, which break no rule, by what they are.
#[derive(Drop)]
struct Sorted {
    anonymous: Option<Positioned<OperationDefinition>>,
    operations: NameMap<Positioned<OperationDefinition>>,
    fragments: NameMap<Positioned<FragmentDefinition>>,
}

impl Sorted {
    /// None so far, in maps that hash by the seed for all these definitions.
    fn none_of(definitions: &[Definition], memory: &Memory) -> Sorted
        ensures anonymous { result.anonymous ≡ None }
        ensures operations { IsEmpty result.operations }
        ensures fragments { IsEmpty result.fragments }
        ensures operations_seed { hasher_of result.operations ≡ document_seed definitions.now }
        ensures fragments_seed { hasher_of result.fragments ≡ document_seed definitions.now }
    {
        let seed = seed_of(definitions);
        Sorted {
            anonymous: None,
            operations: memory.empty_indexed(seed),
            fragments: memory.empty_indexed(seed),
        }
    }

    /// Where the first operation stands.
    fn first_operation(&self) -> Option<Pos>
        ensures { result ≡ or_else (option_map (λ o. o.pos) self.now.anonymous)
            (first_place self.now.operations.entries) }
    {
        if let Some(operation) = &self.anonymous {
            return Some(operation.pos);
        }
        let (_, operation) = self.operations.first()?;
        Some(operation.pos)
    }

    /// An operation without a name: no other operation may stand beside it.
    fn add_anonymous(&mut self, operation: Positioned<OperationDefinition>) -> Result<()>
        ensures added { (ds : List SpecDefinition) → IsSorted ds self.old →
            IsAdded ds (an_operation None (placed operation_tree operation)) result self.new }
        ensures takes_none { result ≢ Err OutOfMemory }
    {
        if let Some(first) = self.first_operation() {
            return Err(Error::MultipleOperations {
                anonymous: operation.pos,
                operation: first,
            });
        }
        self.anonymous = Some(operation);
        Ok(())
    }

    /// An operation with a name, which no other may have.
    fn add_operation(
        &mut self,
        memory: &mut Memory,
        name: Name,
        operation: Positioned<OperationDefinition>,
    ) -> Result<()>
        ensures added { (ds : List SpecDefinition) → IsSorted ds self.old →
            IsAdded ds (an_operation (Some name) (placed operation_tree operation)) result
            self.new }
        ensures takes { Takes definition_bytes memory.old memory.new }
        ensures refused { result ≡ Err OutOfMemory → Refused memory.new }
    {
        let second = operation.pos;
        if let Some(anonymous) = &self.anonymous {
            return Err(Error::MultipleOperations {
                anonymous: anonymous.pos,
                operation: second,
            });
        }
        if let Some(first) = self.operations.get(&name) {
            return Err(Error::OperationDuplicated {
                operation: name,
                first: first.pos,
                second,
            });
        }
        memory.insert_indexed(&mut self.operations, name, operation)?;
        Ok(())
    }

    /// A fragment, whose name no other may have.
    fn add_fragment(
        &mut self,
        memory: &mut Memory,
        name: Name,
        fragment: Positioned<FragmentDefinition>,
    ) -> Result<()>
        ensures added { (ds : List SpecDefinition) → IsSorted ds self.old →
            IsAdded ds (a_fragment name (placed fragment_tree fragment)) result self.new }
        ensures takes { Takes definition_bytes memory.old memory.new }
        ensures refused { result ≡ Err OutOfMemory → Refused memory.new }
    {
        if let Some(first) = self.fragments.get(&name) {
            return Err(Error::FragmentDuplicated {
                fragment: name,
                first: first.pos,
                second: fragment.pos,
            });
        }
        memory.insert_indexed(&mut self.fragments, name, fragment)?;
        Ok(())
    }
}

/// The definitions of a request, before their rules are looked at.
#[derive(Drop)]
pub struct KeptDefinitions {
    items: Vec<Definition>,
}

impl<'a> Kept<'a> for KeptDefinitions {
    type Document = ExecutableDocument;

    ghost Tree = { SpecDefinition };

    ghost Sum = { List SpecDefinition };

    ghost sum = { λ ds. ds };

    ghost kept = { λ kept. definition_trees kept.items.items };

    ghost language = { requests };

    ghost Costs = { λ _ ts most. most ≡ worth ts };

    ghost owes = { λ kept. definition_bytes * vec_len kept.items };

    ghost reader = { definitions_at };

    /// `ExecutableDocument : ExecutableDefinition+` (GraphQL October 2021, section 2.2)
    fn read_all(parser: &mut Parser<'a>, limits: Limits) -> Reading<KeptDefinitions> {
        let items = one_or_more::<Definition>(parser, limits)?;
        parser.expect_end()?;
        Ok(KeptDefinitions { items })
    }

    fn into_document(self, memory: &mut Memory) -> Result<ExecutableDocument> {
        let mut sorted = Sorted::none_of(self.items.as_slice(), memory);
        for definition in self.items {
            let added = match definition {
                Definition::Operation(name, operation) => match name {
                    Some(name) => sorted.add_operation(memory, name, operation),
                    None => sorted.add_anonymous(operation),
                },
                Definition::Fragment(name, fragment) => sorted.add_fragment(memory, name, fragment),
            };
            added?;
        }
        let Sorted {
            anonymous,
            operations,
            fragments,
        } = sorted;
        let operations = match anonymous {
            Some(operation) => DocumentOperations::Single(operation),
            None if operations.is_empty() => return Err(Error::MissingOperation),
            None => DocumentOperations::Multiple(operations),
        };
        Ok(ExecutableDocument {
            operations,
            fragments,
        })
    }
}
