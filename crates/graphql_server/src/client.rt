//! What the client can do (Language Server Protocol 3.17, "Initialize Request": "ClientCapabilities").

use text_edits::Encoding;

/// What a client can do, as far as answers depend on it.
#[derive(Clone, Copy)]
pub struct Client {
    /// The units in which it counts columns ("GeneralClientCapabilities").
    pub encoding: Encoding,
    /// It asks for diagnostics itself ("DiagnosticClientCapabilities").
    pub asks_for_diagnostics: bool,
    /// It shows the other place of a diagnostic ("PublishDiagnosticsClientCapabilities").
    pub shows_related: bool,
    /// It takes quick fixes, and not commands alone ("CodeActionClientCapabilities").
    pub takes_fixes: bool,
    /// It shows symbols inside of others ("DocumentSymbolClientCapabilities").
    pub nests_symbols: bool,
    /// The kinds of symbols that it knows.
    pub kinds: SymbolKinds,
    /// It wants to have the texts of a hover in Markdown ("HoverClientCapabilities").
    pub likes_markdown: bool,
}

impl Client {
    /// A client that reports nothing of itself.
    pub fn new() -> Client {
        Client {
            encoding: Encoding::Utf16,
            asks_for_diagnostics: false,
            shows_related: false,
            takes_fixes: false,
            nests_symbols: false,
            kinds: SymbolKinds::first(),
            likes_markdown: false,
        }
    }
}

// The kinds of the protocol's first version are those up to this one, `Array`.
const LAST_OF_FIRST: usize = 18;

// The last kind, `TypeParameter`.
const LAST: usize = 26;

/// Kinds of symbols, by their numbers ("SymbolKind").
#[derive(Clone, Copy)]
pub struct SymbolKinds {
    has: [bool; LAST + 1],
}

impl SymbolKinds {
    /// No kind.
    pub fn none() -> SymbolKinds {
        SymbolKinds {
            has: [false; LAST + 1],
        }
    }

    /// Those of the protocol's first version, which every client knows that doesn't report its kinds.
    pub fn first() -> SymbolKinds {
        let mut kinds = SymbolKinds::none();
        for kind in 1..=LAST_OF_FIRST {
            kinds.add(kind);
        }
        kinds
    }

    /// Adds a kind. A number that the protocol doesn't have is passed over.
    pub fn add(&mut self, kind: usize) {
        if let Some(has) = self.has.get_mut(kind) {
            *has = true;
        }
    }

    /// Whether this kind is one of them.
    pub fn has(&self, kind: usize) -> bool {
        self.has.get(kind).copied().unwrap_or(false)
    }
}
