//! What a client may ask for (Language Server Protocol 3.17).

/// What a message asks for.
#[derive(Clone, Copy)]
pub enum Method {
    Initialize,
    Shutdown,
    Exit,
    DidOpen,
    DidChange,
    DidClose,
    Diagnostic,
    CodeAction,
    DocumentSymbol,
    FoldingRange,
    SelectionRange,
    Formatting,
    RangeFormatting,
    Definition,
    References,
    Hover,
    /// What the server doesn't know.
    Other,
}

impl Method {
    /// The method of this name.
    pub fn of(name: &str) -> Method {
        match name {
            "initialize" => Method::Initialize,
            "shutdown" => Method::Shutdown,
            "exit" => Method::Exit,
            "textDocument/didOpen" => Method::DidOpen,
            "textDocument/didChange" => Method::DidChange,
            "textDocument/didClose" => Method::DidClose,
            "textDocument/diagnostic" => Method::Diagnostic,
            "textDocument/codeAction" => Method::CodeAction,
            "textDocument/documentSymbol" => Method::DocumentSymbol,
            "textDocument/foldingRange" => Method::FoldingRange,
            "textDocument/selectionRange" => Method::SelectionRange,
            "textDocument/formatting" => Method::Formatting,
            "textDocument/rangeFormatting" => Method::RangeFormatting,
            "textDocument/definition" => Method::Definition,
            "textDocument/references" => Method::References,
            "textDocument/hover" => Method::Hover,
            _ => Method::Other,
        }
    }
}
