//! What the calls of both languages share.
ghost use Rattle.std.specs.Prelude.{◌≡◌, length, string_bytes, IfOk};
ghost use Rattle.graphql_json.specs.nodes.Nodes.{json_text};
ghost use Rattle.graphql_parser.specs.answers.Language.{Language as DocumentLanguage};
ghost use Rattle.graphql_parser.specs.Checking.{checked};
ghost use Rattle.graphql_parser.specs.requests.Request.{Definition as RequestDefinition};
ghost use Rattle.graphql_parser.specs.requests.Requests.{requests};
ghost use Rattle.graphql_parser.specs.schemas.SchemaFile.{Definition as SchemaDefinition};
ghost use Rattle.graphql_parser.specs.schemas.Schemas.{schemas};
ghost use Rattle.graphql_parser_c.specs.Documents.{executable_bytes, executable_value, service_bytes, service_value};
ghost use Rattle.graphql_parser_c.specs.Rewriting.{LaysOut, Minifies};
ghost use Rattle.graphql_parser_c.specs.Telling.{AnswersText, IsSpent};
ghost use Rattle.graphql_report.specs.declared.fronts.Language.{Language as ReadAs};
ghost use Rattle.graphql_report.specs.declared.fronts.Language.TheVariants.{Requests, Schemas};

use graphql_json::{Places, request_json, schema_json};
use graphql_packed::{packed_request, packed_schema};
use graphql_parser::types::{ExecutableDocument, ServiceDocument};
use graphql_parser::{
    Limits, Memory, Result, check_query_within, check_schema_within, parse_query_within,
    parse_schema_within,
};
use graphql_printer::{format_query, format_schema, minify_query, minify_schema};
use graphql_report::Language;
use std::alloc::{AllocError, Global};

/// The documents of a language: how a text is read and rewritten, its tree written and packed, and an error in it explained.
pub trait Document: Drop {
    ghost use Rattle.graphql_json.specs.declared.place.Places.{Places as WrittenPlaces};
    ghost use Rattle.graphql_packed.specs.packed.Bytes.{Bytes};
    ghost use Rattle.json.specs.Json.{Json};

    // The tree of a definition.
    ghost Tree: { Type 0 };

    ghost language: { DocumentLanguage Self.Tree Self };

    // The language, as reports have it.
    ghost read_as: { ReadAs };

    // The JSON of a document.
    ghost value: { WrittenPlaces → Self → Json };

    // The bytes of a document.
    ghost bytes: { Self → Bytes };

    /// The language, as reports have it.
    fn language() -> Language
        ensures { result ≡ Self.read_as };

    /// Reads a text.
    fn read(memory: &mut Memory, text: &str, limits: Limits) -> Result<Self>
        ensures answers { AnswersText Self.language limits text.now result }
        ensures spent { IsSpent (length text.now) result memory.old memory.new };

    /// Checks a text: the same, without a tree.
    fn check(memory: &mut Memory, text: &str, limits: Limits) -> Result<()>
        ensures answers { AnswersText (checked Self.language) limits text.now result }
        ensures spent { IsSpent (length text.now) result memory.old memory.new };

    /// The tree as JSON.
    fn json(&self, alloc: Global, places: Places) -> std::result::Result<Vec<u8>, AllocError>
        ensures { IfOk result (λ json. json.items ≡ json_text (Self.value places self.now)) };

    /// The tree as bytes for a wrapper.
    fn packed(&self, alloc: Global) -> std::result::Result<Vec<u8>, AllocError>
        ensures { IfOk result (λ packed. packed.items ≡ Self.bytes self.now) };

    /// An accepted text without what isn't needed in it.
    fn minified(
        alloc: Global,
        text: &str,
        limits: Limits,
    ) -> std::result::Result<String, AllocError>
        ensures { IfOk result (λ s. Minifies Self.language limits text.now (string_bytes s)) };

    /// An accepted text laid out.
    fn formatted(
        alloc: Global,
        text: &str,
        limits: Limits,
    ) -> std::result::Result<String, AllocError>
        ensures { IfOk result (λ s. LaysOut Self.language limits text.now (string_bytes s)) };
}

impl Document for ExecutableDocument {
    ghost Tree = { RequestDefinition };

    ghost language = { requests };

    ghost read_as = { Requests };

    ghost value = { executable_value };

    ghost bytes = { executable_bytes };

    fn language() -> Language {
        Language::Requests
    }

    fn read(memory: &mut Memory, text: &str, limits: Limits) -> Result<ExecutableDocument> {
        parse_query_within(memory, text, limits)
    }

    fn check(memory: &mut Memory, text: &str, limits: Limits) -> Result<()> {
        check_query_within(memory, text, limits)
    }

    fn json(&self, alloc: Global, places: Places) -> std::result::Result<Vec<u8>, AllocError> {
        request_json(alloc, self, places)
    }

    fn packed(&self, alloc: Global) -> std::result::Result<Vec<u8>, AllocError> {
        packed_request(alloc, self)
    }

    fn minified(
        alloc: Global,
        text: &str,
        limits: Limits,
    ) -> std::result::Result<String, AllocError> {
        match minify_query(alloc, text, limits) {
            Ok(minified) => Ok(minified),
            Err(_) => Err(AllocError),
        }
    }

    fn formatted(
        alloc: Global,
        text: &str,
        limits: Limits,
    ) -> std::result::Result<String, AllocError> {
        match format_query(alloc, text, limits) {
            Ok(formatted) => Ok(formatted),
            Err(_) => Err(AllocError),
        }
    }
}

impl Document for ServiceDocument {
    ghost Tree = { SchemaDefinition };

    ghost language = { schemas };

    ghost read_as = { Schemas };

    ghost value = { service_value };

    ghost bytes = { service_bytes };

    fn language() -> Language {
        Language::Schemas
    }

    fn read(memory: &mut Memory, text: &str, limits: Limits) -> Result<ServiceDocument> {
        parse_schema_within(memory, text, limits)
    }

    fn check(memory: &mut Memory, text: &str, limits: Limits) -> Result<()> {
        check_schema_within(memory, text, limits)
    }

    fn json(&self, alloc: Global, places: Places) -> std::result::Result<Vec<u8>, AllocError> {
        schema_json(alloc, self, places)
    }

    fn packed(&self, alloc: Global) -> std::result::Result<Vec<u8>, AllocError> {
        packed_schema(alloc, self)
    }

    fn minified(
        alloc: Global,
        text: &str,
        limits: Limits,
    ) -> std::result::Result<String, AllocError> {
        match minify_schema(alloc, text, limits) {
            Ok(minified) => Ok(minified),
            Err(_) => Err(AllocError),
        }
    }

    fn formatted(
        alloc: Global,
        text: &str,
        limits: Limits,
    ) -> std::result::Result<String, AllocError> {
        match format_schema(alloc, text, limits) {
            Ok(formatted) => Ok(formatted),
            Err(_) => Err(AllocError),
        }
    }
}
