//! What is done with the texts of a workload, in rounds.
use super::digest::Digest;
use super::texts::{Text, Way, read_texts};
use super::walks::{add_request, add_schema};
use crate::rewritten::{Rewriting, rewritten};
use graphql_json::{Places, request_json, schema_json};
use graphql_packed::{packed_request, packed_schema};
use graphql_parser::lexer::Tokens;
use graphql_parser::types::{ExecutableDocument, ServiceDocument};
use graphql_parser::{
    Limits, Result as Answer, check_query, check_schema, parse_query, parse_schema,
};
use graphql_printer::{print_query, print_schema};
use graphql_report::{Language, explain};
use rows::Parser;
use std::alloc::{AllocError, Global};

/// Changes all texts of a file and reads them, in this many rounds. Returns the digest of all answers.
pub fn digest_of(alloc: Global, file: &str, rounds: u32) -> Result<u64, AllocError> {
    let mut texts = Vec::new(alloc);
    let mut random = read_texts(file, &mut texts)?;
    let mut digest = Digest::new();
    for _ in 0..rounds {
        for text in &mut texts {
            text.change(&mut random);
            read(alloc, text, &mut digest);
        }
    }
    Ok(digest.number())
}

// Memory that is refused is an answer too, so that nothing here ends early.
fn read(alloc: Global, stamped: &Text, digest: &mut Digest) {
    let text = stamped.text();
    let language = stamped.language;
    match stamped.way {
        Way::Walk => walk(alloc, language, text, digest),
        Way::Check => check(alloc, language, text, digest),
        Way::Give => give(alloc, language, text, digest),
        Way::Explain => report(alloc, language, text, digest),
        Way::Write => write(alloc, language, text, digest),
        Way::Cut => {
            add_tokens(text, digest);
            check(alloc, language, text, digest);
            walk(alloc, language, text, digest);
        }
        Way::Edit => {}
    }
}

fn walk(alloc: Global, language: Language, text: &str, digest: &mut Digest) {
    match language {
        Language::Requests => match parse_query(alloc, text) {
            Ok(document) => add_request(digest, &document),
            Err(error) => digest.add_error(&error),
        },
        Language::Schemas => match parse_schema(alloc, text) {
            Ok(document) => add_schema(digest, &document),
            Err(error) => digest.add_error(&error),
        },
    }
}

fn checked(alloc: Global, language: Language, text: &str) -> Answer<()> {
    match language {
        Language::Requests => check_query(alloc, text),
        Language::Schemas => check_schema(alloc, text),
    }
}

fn check(alloc: Global, language: Language, text: &str, digest: &mut Digest) {
    match checked(alloc, language, text) {
        Ok(()) => digest.add(1),
        Err(error) => digest.add_error(&error),
    }
}

fn report(alloc: Global, language: Language, text: &str, digest: &mut Digest) {
    if let Err(error) = checked(alloc, language, text) {
        let limits = Limits::default();
        add_text(
            explain(alloc, language, "a.graphql", text, limits, &error),
            digest,
        );
    }
}

fn give(alloc: Global, language: Language, text: &str, digest: &mut Digest) {
    match language {
        Language::Requests => match parse_query(alloc, text) {
            Ok(document) => give_request(alloc, &document, digest),
            Err(error) => digest.add_error(&error),
        },
        Language::Schemas => match parse_schema(alloc, text) {
            Ok(document) => give_file(alloc, &document, digest),
            Err(error) => digest.add_error(&error),
        },
    }
}

fn give_request(alloc: Global, document: &ExecutableDocument, digest: &mut Digest) {
    add_bytes(request_json(alloc, document, Places::Written), digest);
    add_bytes(packed_request(alloc, document), digest);
}

fn give_file(alloc: Global, document: &ServiceDocument, digest: &mut Digest) {
    add_bytes(schema_json(alloc, document, Places::LeftOut), digest);
    add_bytes(packed_schema(alloc, document), digest);
}

fn write(alloc: Global, language: Language, text: &str, digest: &mut Digest) {
    let parser = match language {
        Language::Requests => Parser::Query,
        Language::Schemas => Parser::Schema,
    };
    for rewriting in [Rewriting::Formatted, Rewriting::Minified] {
        match rewritten(alloc, rewriting, parser, text, Limits::default()) {
            Ok(text) => digest.add_text(text.as_str()),
            Err(error) => digest.add_error(&error),
        }
    }
    print(alloc, language, text, digest);
}

fn print(alloc: Global, language: Language, text: &str, digest: &mut Digest) {
    match language {
        Language::Requests => match parse_query(alloc, text) {
            Ok(document) => add_text(print_query(alloc, &document), digest),
            Err(error) => digest.add_error(&error),
        },
        Language::Schemas => match parse_schema(alloc, text) {
            Ok(document) => add_text(print_schema(alloc, &document), digest),
            Err(error) => digest.add_error(&error),
        },
    }
}

fn add_bytes(given: Result<Vec<u8>, AllocError>, digest: &mut Digest) {
    match given {
        Ok(bytes) => digest.add_bytes(bytes.as_slice()),
        Err(_) => digest.add(78),
    }
}

fn add_text(given: Result<String, AllocError>, digest: &mut Digest) {
    match given {
        Ok(text) => digest.add_text(text.as_str()),
        Err(_) => digest.add(78),
    }
}

// By calls of `next_token`, as tools make them: a `for` over `Tokens` compiles to other code.
fn add_tokens(text: &str, digest: &mut Digest) {
    let mut tokens = Tokens::new(text);
    while !tokens.is_ended() {
        let token = tokens.next_token();
        digest.add_place(token.pos);
        let start = token.start as u64;
        let len = token.text.len() as u64;
        digest.add((start << 32) ^ (len << 8) ^ (token.kind as u64));
    }
}
