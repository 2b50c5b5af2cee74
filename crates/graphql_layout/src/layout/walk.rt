//! What each token of a text is among those before it. It knows no grammar: of a text that a parser accepts it tells what a
//! layout wants to know, and of others it tells something.
use graphql_tokens::lexer::TokenKind;
use std::alloc::{AllocError, Global};

/// What an open bracket holds.
#[derive(Clone, Copy, PartialEq)]
pub enum Bracket {
    /// Selections, fields, enum values or root operations.
    Set,
    /// The fields of an object.
    Object,
    /// The items of a list, or the type of the items of a list type.
    List,
    /// The arguments of a field that is selected.
    Call,
    /// The variables of an operation, or the arguments of a field or a directive that is defined.
    Definitions,
    /// The arguments of a directive.
    Directive,
}

impl Bracket {
    /// The opening and the closing bracket.
    pub fn marks(self) -> (u8, u8) {
        match self {
            Bracket::Set | Bracket::Object => (b'{', b'}'),
            Bracket::List => (b'[', b']'),
            _ => (b'(', b')'),
        }
    }

    /// Whether it is broken where what it holds begins on the next line.
    pub fn breaks_by_its_beginning(self) -> bool {
        matches!(self, Bracket::List | Bracket::Object | Bracket::Definitions)
    }
}

/// What a token is among those before it.
#[derive(Clone, Copy, PartialEq)]
pub enum Role {
    /// It begins a definition.
    Definition,
    /// It begins a member of the innermost open bracket.
    Member,
    /// It begins what the description before it describes.
    Described,
    /// It belongs to what is before it, and touches it.
    Touching,
    /// It belongs to what is before it, and stands apart from it.
    Apart,
    /// The same, and after it come the members of a union, or the locations of a directive.
    Heading,
    /// It begins one of these.
    Branch,
    /// It opens the set of what is before it.
    Body,
    /// It closes the innermost open bracket.
    Closing,
    /// It is the end.
    End,
}

/// A token among those before it.
#[derive(Clone, Copy)]
pub struct Step {
    /// What it is.
    pub role: Role,
    /// Whether it is the first in its bracket, or in the text.
    pub is_first: bool,
    /// Whether it is a description.
    pub describes: bool,
    /// The bracket that it opens.
    pub opens: Option<Bracket>,
}

// What the token before was, as far as it decides what the next one is.
#[derive(Clone, Copy, PartialEq)]
enum Last {
    // There is none.
    Start,
    // It opened a bracket.
    Opening,
    // `@` or `$`.
    Sigil,
    // `...`
    Dots,
    // `extend`
    Extend,
    // One after which branches come.
    Heading,
    // Another after which a name or a value belongs to it.
    Wanting,
    // A description.
    Description,
    // One after which the next may begin something.
    Whole,
    // A `}` outside of all brackets.
    Closed,
}

// What is defined.
#[derive(Clone, Copy, PartialEq)]
enum Defined {
    // An operation or a fragment.
    Request,
    // A directive.
    Directive,
    // Another.
    Other,
}

/// The tokens of a text up to one of them.
#[derive(Drop)]
pub struct Walk {
    // The open brackets, and the innermost of them.
    open: Vec<Bracket>,
    innermost: Option<Bracket>,
    last: Last,
    defined: Defined,
    // Whether the last name is that of a directive.
    is_directive: bool,
}

impl Walk {
    /// Before the first token.
    pub fn new(alloc: Global) -> Walk {
        Walk {
            open: Vec::new(alloc),
            innermost: None,
            last: Last::Start,
            defined: Defined::Other,
            is_directive: false,
        }
    }

    /// Passes the next token. It fails only where memory runs out.
    #[inline(always)]
    pub fn step(&mut self, kind: TokenKind, spelling: &str) -> Result<Step, AllocError> {
        match kind {
            TokenKind::Name => Ok(self.pass_name(spelling)),
            TokenKind::Punct => self.pass_punct(spelling),
            TokenKind::End => Ok(self.at(Role::End)),
            _ => Ok(self.pass_literal(kind)),
        }
    }

    /// Whether the definition is one of a request.
    pub fn is_in_request(&self) -> bool {
        self.defined == Defined::Request
    }

    // A token that is this, and opens nothing.
    #[inline(always)]
    fn at(&self, role: Role) -> Step {
        Step {
            role,
            is_first: matches!(self.last, Last::Start | Last::Opening),
            describes: false,
            opens: None,
        }
    }

    // What a token is that begins something.
    #[inline(always)]
    fn beginning(&self) -> Role {
        if self.innermost.is_none() {
            Role::Definition
        } else {
            Role::Member
        }
    }

    #[inline(always)]
    fn is_in(&self, bracket: Bracket) -> bool {
        self.innermost == Some(bracket)
    }

    // ---- names

    #[inline(always)]
    fn pass_name(&mut self, name: &str) -> Step {
        let step = self.at(self.role_of_name(name));
        if step.role == Role::Definition
            || step.role == Role::Described && self.innermost.is_none()
        {
            self.defined = match name {
                "query" | "mutation" | "subscription" | "fragment" => Defined::Request,
                "directive" => Defined::Directive,
                _ => Defined::Other,
            };
        }
        self.is_directive = self.last == Last::Sigil;
        self.last = if self.innermost.is_some() {
            self.after_inner_name(name)
        } else {
            self.after_outer_name(step.role, name)
        };
        step
    }

    fn role_of_name(&self, name: &str) -> Role {
        match self.last {
            Last::Start | Last::Opening | Last::Closed => self.beginning(),
            Last::Whole if self.innermost.is_some() => Role::Member,
            Last::Whole if name == "on" && self.defined == Defined::Directive => Role::Heading,
            Last::Whole if !matches!(name, "implements" | "on" | "repeatable") => Role::Definition,
            Last::Description => Role::Described,
            Last::Sigil => Role::Touching,
            Last::Dots if name != "on" => Role::Touching,
            Last::Heading => Role::Branch,
            _ => Role::Apart,
        }
    }

    fn after_inner_name(&self, name: &str) -> Last {
        if self.last == Last::Dots && name == "on" {
            Last::Wanting
        } else {
            Last::Whole
        }
    }

    fn after_outer_name(&self, role: Role, name: &str) -> Last {
        let is_keyword = matches!(role, Role::Definition | Role::Described)
            || self.last == Last::Extend;
        if is_keyword && name == "extend" {
            return Last::Extend;
        }
        let is_clause = self.last == Last::Whole && matches!(name, "implements" | "on");
        if role == Role::Heading {
            Last::Heading
        } else if is_keyword || is_clause {
            Last::Wanting
        } else {
            Last::Whole
        }
    }

    // ---- punctuators

    // The first character of a punctuator tells which one it is.
    #[inline(always)]
    fn pass_punct(&mut self, spelling: &str) -> Result<Step, AllocError> {
        let mark = spelling.as_bytes().first().copied().unwrap_or(b' ');
        if matches!(mark, b')' | b']' | b'}') {
            return Ok(self.pass_closing(mark));
        }
        let opens = self.opened(mark);
        let step = Step {
            opens,
            ..self.at(self.role_of_punct(mark, opens))
        };
        if step.role == Role::Definition {
            self.defined = Defined::Request;
        }
        self.last = after_punct(mark, step.role);
        if let Some(bracket) = opens {
            self.open.push(bracket)?;
            self.innermost = opens;
        }
        Ok(step)
    }

    #[inline(always)]
    fn pass_closing(&mut self, mark: u8) -> Step {
        let step = self.at(Role::Closing);
        self.open.pop();
        self.innermost = self.open.last().copied();
        self.last = if mark == b'}' && self.innermost.is_none() {
            Last::Closed
        } else {
            Last::Whole
        };
        step
    }

    fn role_of_punct(&self, mark: u8, opens: Option<Bracket>) -> Role {
        if self.last == Last::Description {
            Role::Described
        } else if self.begins(mark) {
            self.beginning()
        } else if opens == Some(Bracket::Set) {
            Role::Body
        } else if self.touches(mark) {
            Role::Touching
        } else {
            match mark {
                b'=' if self.innermost.is_none() => Role::Heading,
                b'|' => Role::Branch,
                _ => Role::Apart,
            }
        }
    }

    // Whether a definition or a member begins with this punctuator.
    fn begins(&self, mark: u8) -> bool {
        match self.last {
            Last::Start | Last::Opening | Last::Closed => true,
            Last::Whole => match mark {
                b'.' | b'$' | b'[' => true,
                b'{' => self.is_in(Bracket::List),
                _ => false,
            },
            _ => false,
        }
    }

    // Whether nothing stands between the token before and this one, which belongs to it.
    fn touches(&self, mark: u8) -> bool {
        match mark {
            b':' | b'!' => true,
            b'(' => self.last != Last::Wanting,
            _ => self.last == Last::Sigil,
        }
    }

    // The bracket that this punctuator opens.
    fn opened(&self, mark: u8) -> Option<Bracket> {
        match mark {
            b'[' => Some(Bracket::List),
            b'(' => Some(self.parenthesis()),
            b'{' if self.innermost.is_none() => Some(Bracket::Set),
            b'{' if self.is_in(Bracket::Set) && self.last != Last::Wanting => Some(Bracket::Set),
            b'{' => Some(Bracket::Object),
            _ => None,
        }
    }

    // What a parenthesis opens.
    fn parenthesis(&self) -> Bracket {
        let is_defined = self.innermost.is_none() && self.defined == Defined::Directive;
        if self.is_directive && !is_defined {
            Bracket::Directive
        } else if self.is_in(Bracket::Set) && self.is_in_request() {
            Bracket::Call
        } else {
            Bracket::Definitions
        }
    }

    // ---- strings and numbers

    #[inline(always)]
    fn pass_literal(&mut self, kind: TokenKind) -> Step {
        let role = self.role_of_literal();
        let describes = (kind.is_string() || kind.is_block())
            && matches!(role, Role::Definition | Role::Member)
            && !self.is_in(Bracket::List);
        let step = Step {
            describes,
            ..self.at(role)
        };
        if role == Role::Definition {
            self.defined = Defined::Other;
        }
        self.last = if describes {
            Last::Description
        } else {
            Last::Whole
        };
        step
    }

    fn role_of_literal(&self) -> Role {
        match self.last {
            Last::Start | Last::Opening | Last::Closed | Last::Whole => self.beginning(),
            Last::Description => Role::Described,
            Last::Sigil => Role::Touching,
            _ => Role::Apart,
        }
    }
}

// What a punctuator that closes nothing, and is this among those before it, is to the token after it.
fn after_punct(mark: u8, role: Role) -> Last {
    match mark {
        _ if role == Role::Heading => Last::Heading,
        b'(' | b'[' | b'{' => Last::Opening,
        b'!' => Last::Whole,
        b'@' | b'$' => Last::Sigil,
        b'.' => Last::Dots,
        _ => Last::Wanting,
    }
}
