//! Places as `Debug` shows them: with the number of characters passed, which no place keeps.

// A walk, and how many characters it has passed.
#[derive(Debug, Drop)]
pub struct TextWalk<'a> {
    pub text: &'a str,
    pub offset: usize,
    pub count: usize,
}

// A place, and how many of the characters passed stand before its columns begin.
#[derive(Debug, Drop)]
pub struct RunningPlace<'a, W> {
    pub walk: &'a W,
    pub line: usize,
    pub before: usize,
}

// A place of a calculator.
#[derive(Debug, Drop)]
pub struct CountedPlace<'a, P, N> {
    pub place: &'a P,
    pub number: &'a N,
}
