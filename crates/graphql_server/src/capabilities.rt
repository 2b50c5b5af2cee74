//! What the server reports at the beginning (Language Server Protocol 3.17, "Initialize Request").

use crate::client::Client;
use crate::fixes::QUICK_FIX;
use crate::writer::JsonWriter;
use text_edits::Encoding;

// Those of "ServerCapabilities" that have no options.
const PROVIDERS: [&str; 8] = [
    "documentSymbolProvider",
    "foldingRangeProvider",
    "selectionRangeProvider",
    "documentFormattingProvider",
    "documentRangeFormattingProvider",
    "definitionProvider",
    "referencesProvider",
    "hoverProvider",
];

/// Writes what the server can do for a client, and its name ("InitializeResult").
pub fn write_initialized(client: &Client, json: &mut JsonWriter) {
    json.begin_object();
    json.object_member("capabilities");
    write_options(client, json);
    for provider in PROVIDERS {
        json.boolean_member(provider, true);
    }
    json.end_object();
    json.object_member("serverInfo");
    json.text_member("name", "gql");
    json.text_member("version", "1.0.0");
    json.end_object();
    json.end_object();
}

fn write_options(client: &Client, json: &mut JsonWriter) {
    json.text_member("positionEncoding", name_of(client.encoding));
    json.object_member("textDocumentSync");
    json.boolean_member("openClose", true);
    // Changes come by their ranges.
    json.size_member("change", 2);
    json.end_object();
    json.object_member("diagnosticProvider");
    json.text_member("identifier", "gql");
    json.boolean_member("interFileDependencies", false);
    json.boolean_member("workspaceDiagnostics", false);
    json.end_object();
    if client.takes_fixes {
        json.object_member("codeActionProvider");
        json.list_member("codeActionKinds");
        json.text(QUICK_FIX);
        json.end_list();
        json.end_object();
    }
}

fn name_of(encoding: Encoding) -> &'static str {
    match encoding {
        Encoding::Utf8 => "utf-8",
        Encoding::Utf16 => "utf-16",
        Encoding::Utf32 => "utf-32",
    }
}
