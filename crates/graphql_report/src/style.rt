//! How the parts of a report stand out.
ghost use Rattle.std.specs.Prelude.{◌≡◌, ◌++◌, OnOk, string_bytes};
ghost use Rattle.graphql_report.specs.reports.Reports.{code_of, styled};

use std::alloc::AllocError;

/// How a report is written.
#[derive(Clone, Copy, Debug, PartialEq, Eq)]
pub enum Style {
    /// As text alone.
    Plain,
    /// With the codes by which a terminal shows the places in bold, the word `error` in bold red and the carets in red.
    Coloured,
}

/// What stands out in a report.
#[derive(Clone, Copy, Debug, PartialEq, Eq)]
pub enum Part {
    Place,
    Error,
    Caret,
}

impl Part {
    // The code after which a terminal shows it as it is to be shown.
    fn code(self) -> &'static str
        ensures { result.now ≡ code_of self }
    {
        match self {
            Part::Place => "\u{1b}[1m",
            Part::Error => "\u{1b}[1;31m",
            Part::Caret => "\u{1b}[31m",
        }
    }
}

// The code after which a terminal shows all as usual.
const USUAL: &str = "\u{1b}[0m";

impl Style {
    /// Adds the text of a part.
    pub fn push(self, out: &mut String, part: Part, text: &str) -> Result<(), AllocError>
        ensures { OnOk result (string_bytes out.new ≡ string_bytes out.old ++
            styled self part text.now) }
    {
        match self {
            Style::Plain => out.push_str(text),
            Style::Coloured => {
                out.push_str(part.code())?;
                out.push_str(text)?;
                out.push_str(USUAL)
            }
        }
    }
}
