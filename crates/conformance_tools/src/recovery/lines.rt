//! Lines that a text is read from.
use graphql_report::ReadFrom;
use rows::Shown;

/// The number of the line that begins at an offset of a text of four line feeds; with a second offset, also of the line that
/// begins there, counted from the first one.
pub fn later_line(shown: &mut Shown, offsets: &str) {
    let text = "# é\n) type\n{\n\n";
    let (first, second) = offsets.split_once(' ').unwrap_or((offsets, ""));
    let Ok(first) = first.parse() else {
        shown.word("no such offset");
        return;
    };
    let Some(from) = ReadFrom::top(text).later(text, first) else {
        shown.word("none");
        return;
    };
    shown.item("", &from.line);
    if let Ok(second) = second.parse() {
        match from.later(text, second) {
            Some(later) => shown.item(" ", &later.line),
            None => shown.word(" none"),
        }
    }
}
