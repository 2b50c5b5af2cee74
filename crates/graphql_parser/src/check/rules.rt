//! The rules that the definitions of a request keep, by their heads. Names are found by their order, so none take
//! longer than others of their length.
ghost use Rattle.std.specs.Prelude.{◌≡◌, ◌≢◌, ◌+◌, length, List, [], ◌∷◌, Some, None, Err, map};
ghost use Rattle.graphql_memory.specs.Memory.{Refused, Takes};
ghost use Rattle.graphql_parser.specs.HeadFunds.{name_bytes, heads_owed};
ghost use Rattle.graphql_grammar.specs.declared.error.Error.TheVariants.{OutOfMemory};
ghost use Rattle.graphql_parser.specs.Checking.{checked};
ghost use Rattle.graphql_parser.specs.RequestHeads.{operation_head, fragment_head, head_tree};
ghost use Rattle.graphql_parser.specs.Sorting.{IsSorted, IsAdded};
ghost use Rattle.graphql_grammar.specs.reading.DocumentOf.{IsDocumentOf};
ghost use Rattle.graphql_requests.specs.grammar.Request.{Definition as SpecDefinition};
ghost use Rattle.graphql_requests.specs.grammar.Requests.{requests};

use crate::check::definitions::Head;
use graphql_grammar::error::{Error, Result};
use graphql_memory::Memory;
use graphql_syntax::pos::Pos;
use graphql_syntax::value::Name;
use std::collections::BTreeMap;

/// What the rules have to know of the definitions so far, which break none.
#[derive(Drop)]
struct Sorted<'a> {
    // Where the first operation stands, and where the one without a name does.
    first: Option<Pos>,
    anonymous: Option<Pos>,
    // Where the operation, and where the fragment of a name stands.
    operations: BTreeMap<&'a str, Pos>,
    fragments: BTreeMap<&'a str, Pos>,
}

impl<'a> Sorted<'a> {
    fn new(memory: &Memory) -> Sorted<'a>
        ensures { IsSorted [] result }
    {
        Sorted {
            first: None,
            anonymous: None,
            operations: memory.empty_ordered(),
            fragments: memory.empty_ordered(),
        }
    }

    /// An operation without a name: no other operation may stand beside it.
    fn add_anonymous(&mut self, place: Pos) -> Result<()>
        ensures added { (ds : List SpecDefinition) → IsSorted ds self.old →
            IsAdded ds (operation_head None place) result self.new }
        ensures takes_none { result ≢ Err OutOfMemory }
    {
        if let Some(first) = self.first {
            return Err(Error::MultipleOperations {
                anonymous: place,
                operation: first,
            });
        }
        self.first = Some(place);
        self.anonymous = Some(place);
        Ok(())
    }

    /// An operation with a name, which no other may have.
    fn add_operation(&mut self, memory: &mut Memory, name: &'a str, place: Pos) -> Result<()>
        ensures added { (ds : List SpecDefinition) → IsSorted ds self.old →
            IsAdded ds (operation_head (Some name.now) place) result self.new }
        ensures takes { Takes (72 + length name.now) memory.old memory.new }
        ensures refused { result ≡ Err OutOfMemory → Refused memory.new }
    {
        if let Some(anonymous) = self.anonymous {
            return Err(Error::MultipleOperations {
                anonymous,
                operation: place,
            });
        }
        match memory.insert_ordered(&mut self.operations, name, place)? {
            None => {
                self.first = self.first.or(Some(place));
                Ok(())
            }
            Some(first) => Err(Error::OperationDuplicated {
                operation: Name::new_in(memory, name)?,
                first,
                second: place,
            }),
        }
    }

    /// A fragment, whose name no other may have.
    fn add_fragment(&mut self, memory: &mut Memory, name: &'a str, place: Pos) -> Result<()>
        ensures added { (ds : List SpecDefinition) → IsSorted ds self.old →
            IsAdded ds (fragment_head name.now place) result self.new }
        ensures takes { Takes (72 + length name.now) memory.old memory.new }
        ensures refused { result ≡ Err OutOfMemory → Refused memory.new }
    {
        match memory.insert_ordered(&mut self.fragments, name, place)? {
            None => Ok(()),
            Some(first) => Err(Error::FragmentDuplicated {
                fragment: Name::new_in(memory, name)?,
                first,
                second: place,
            }),
        }
    }

    fn add(&mut self, memory: &mut Memory, head: Head<'a>) -> Result<()>
        ensures added { (ds : List SpecDefinition) → IsSorted ds self.old →
            IsAdded ds (head_tree head.entry) result self.new }
        ensures takes { Takes (72 + name_bytes head.entry) memory.old memory.new }
        ensures refused { result ≡ Err OutOfMemory → Refused memory.new }
    {
        match head {
            Head::Operation(Some(name), place) => self.add_operation(memory, name, place),
            Head::Operation(None, place) => self.add_anonymous(place),
            Head::Fragment(name, place) => self.add_fragment(memory, name, place),
        }
    }

    /// There is an operation.
    fn finish(&self) -> Result<()>
        ensures document { (ds : List SpecDefinition) → IsSorted ds self.now →
            IsDocumentOf (checked requests) ds result }
        ensures takes_none { result ≢ Err OutOfMemory }
    {
        if self.first.is_none() {
            return Err(Error::MissingOperation);
        }
        Ok(())
    }
}

/// One definition breaks no rule, and is to be an operation.
fn judge_one(head: Head) -> Result<()>
    ensures document { IsDocumentOf (checked requests) (head_tree head.entry ∷ []) result }
    ensures takes_none { result ≢ Err OutOfMemory }
{
    match head {
        Head::Operation(..) => Ok(()),
        Head::Fragment(..) => Err(Error::MissingOperation),
    }
}

/// Whether definitions with these heads make a document, or the first of the rules that they break, in source order.
/// Two heads or more take memory.
pub fn judge(memory: &mut Memory, heads: &[Head]) -> Result<()>
    ensures document { IsDocumentOf (checked requests) (map head_tree heads.now) result }
    ensures takes { Takes (heads_owed heads.now) memory.old memory.new }
    ensures refused { result ≡ Err OutOfMemory → Refused memory.new }
{
    if heads.len() == 1 {
        return judge_one(heads[0]);
    }
    let mut sorted = Sorted::new(memory);
    for head in heads {
        sorted.add(memory, *head)?;
    }
    sorted.finish()
}
