//! Classes of bytes, by a table. A byte of a character that is no ASCII one is in no class but that of plain characters.

ghost use Rattle.std.specs.Prelude.{◌≡◌, slice_index};
ghost use Rattle.graphql_tokens.specs.inner.ByteClasses.{bit_of, has_byte};

// A class of the table.
#[derive(Clone, Copy)]
pub enum CharClass {
    // ASCII characters at which ignored text ends: all but those that are ignored and `#`.
    EndsIgnored,
    // What a name may begin with.
    NameStart,
    // What a name may go on with.
    NameChar,
    // Punctuators of their own.
    Punct,
    // Decimal digits.
    Digit,
    // Characters that stand for themselves in a string.
    Plain,
    // What a number may begin with: a digit or a minus.
    NumberStart,
    // ASCII characters that stand for themselves in a string.
    PlainAscii,
}

// The classes of each byte, in order.
static CLASSES: [u8; 256] = [
    161, 161, 161, 161, 161, 161, 161, 161, 161, 160, 0, 161, 161, 0, 161, 161, 161, 161, 161, 161,
    161, 161, 161, 161, 161, 161, 161, 161, 161, 161, 161, 161, 160, 169, 1, 160, 169, 161, 169,
    161, 169, 169, 161, 161, 160, 225, 161, 161, 245, 245, 245, 245, 245, 245, 245, 245, 245, 245,
    169, 161, 161, 169, 161, 161, 169, 167, 167, 167, 167, 167, 167, 167, 167, 167, 167, 167, 167,
    167, 167, 167, 167, 167, 167, 167, 167, 167, 167, 167, 167, 167, 167, 169, 1, 169, 161, 167,
    161, 167, 167, 167, 167, 167, 167, 167, 167, 167, 167, 167, 167, 167, 167, 167, 167, 167, 167,
    167, 167, 167, 167, 167, 167, 167, 167, 169, 169, 169, 161, 161, 32, 32, 32, 32, 32, 32, 32,
    32, 32, 32, 32, 32, 32, 32, 32, 32, 32, 32, 32, 32, 32, 32, 32, 32, 32, 32, 32, 32, 32, 32, 32,
    32, 32, 32, 32, 32, 32, 32, 32, 32, 32, 32, 32, 32, 32, 32, 32, 32, 32, 32, 32, 32, 32, 32, 32,
    32, 32, 32, 32, 32, 32, 32, 32, 32, 32, 32, 32, 32, 32, 32, 32, 32, 32, 32, 32, 32, 32, 32, 32,
    32, 32, 32, 32, 32, 32, 32, 32, 32, 32, 32, 32, 32, 32, 32, 32, 32, 32, 32, 32, 32, 32, 32, 32,
    32, 32, 32, 32, 32, 32, 32, 32, 32, 32, 32, 32, 32, 32, 32, 32, 32, 32, 32, 32, 32, 32, 32, 32,
    32,
];

// All classes of the byte, a bit for each.
#[inline(always)]
fn classes_of(b: u8) -> u8
    ensures { result ≡ slice_index CLASSES b }
{
    CLASSES[b as usize]
}

impl CharClass {
    // Its bit in the table.
    #[inline(always)]
    fn bit(self) -> u8
        ensures { result ≡ bit_of self }
    {
        match self {
            CharClass::EndsIgnored => 1,
            CharClass::NameStart => 2,
            CharClass::NameChar => 4,
            CharClass::Punct => 8,
            CharClass::Digit => 16,
            CharClass::Plain => 32,
            CharClass::NumberStart => 64,
            CharClass::PlainAscii => 128,
        }
    }

    // Whether the byte is of this class.
    #[inline(always)]
    pub fn has(self, b: u8) -> bool
        ensures { result ≡ has_byte self b }
    {
        classes_of(b) & self.bit() != 0
    }
}
