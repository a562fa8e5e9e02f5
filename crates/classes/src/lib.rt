// The classes of bytes, by one look at a table of 256. The compiler writes a `const` array to the stack where it is used, so a loop is lent a
// table that was made before it.
#![tactic(auto)]

ghost use Rattle.std.specs.Prelude.{◌≡◌};
ghost use Rattle.text_rules.specs.Classes.{class_of, is_letter, is_space, is_word};
ghost use Rattle.classes.specs.Lent.{IsTable, number_of};

// What a byte is among those of a word.
#[derive(Clone, Copy, PartialEq, Eq, Debug)]
pub enum Kind {
    // Any other byte.
    Other,
    // ASCII whitespace.
    Space,
    // A digit.
    Digit,
    // An ASCII letter or `_`.
    Letter,
}

const O: Kind = Kind::Other;

const S: Kind = Kind::Space;

const D: Kind = Kind::Digit;

const L: Kind = Kind::Letter;

const KINDS: [Kind; 256] = [
    O, O, O, O, O, O, O, O, O, S, S, O, S, S, O, O, O, O, O, O, O, O, O, O, O, O, O, O, O, O, O, O,
    S, O, O, O, O, O, O, O, O, O, O, O, O, O, O, O, D, D, D, D, D, D, D, D, D, D, O, O, O, O, O, O,
    O, L, L, L, L, L, L, L, L, L, L, L, L, L, L, L, L, L, L, L, L, L, L, L, L, L, L, O, O, O, O, L, // _
    O, L, L, L, L, L, L, L, L, L, L, L, L, L, L, L, L, L, L, L, L, L, L, L, L, L, L, O, O, O, O, O,
    O, O, O, O, O, O, O, O, O, O, O, O, O, O, O, O, O, O, O, O, O, O, O, O, O, O, O, O, O, O, O, O,
    O, O, O, O, O, O, O, O, O, O, O, O, O, O, O, O, O, O, O, O, O, O, O, O, O, O, O, O, O, O, O, O,
    O, O, O, O, O, O, O, O, O, O, O, O, O, O, O, O, O, O, O, O, O, O, O, O, O, O, O, O, O, O, O, O,
    O, O, O, O, O, O, O, O, O, O, O, O, O, O, O, O, O, O, O, O, O, O, O, O, O, O, O, O, O, O, O, O,
];

// The class of each byte, at its number.
#[derive(Clone, Copy)]
pub struct Classes {
    kinds: [Kind; 256],
    pub ghost right: { IsTable kinds },
}

// The table, to be lent to a loop.
pub fn table() -> Classes {
    Classes { kinds: KINDS }
}

impl Classes {
    // The class of a byte.
    pub fn class(&self, b: u8) -> Kind
        ensures { number_of result ≡ class_of b }
    {
        self.kinds[usize::from(b)]
    }

    // An ASCII letter, a digit or `_`.
    pub fn is_word(&self, b: u8) -> bool
        ensures { result ≡ is_word b }
    {
        matches!(self.class(b), Kind::Digit | Kind::Letter)
    }

    // An ASCII letter or `_`, which a word may begin with.
    pub fn is_letter(&self, b: u8) -> bool
        ensures { result ≡ is_letter b }
    {
        matches!(self.class(b), Kind::Letter)
    }

    // Space, tab, LF, FF or CR.
    pub fn is_space(&self, b: u8) -> bool
        ensures { result ≡ is_space b }
    {
        matches!(self.class(b), Kind::Space)
    }
}

// Kept: who asks a single byte has no table to lend, so these stand beside the methods.

// The class of a byte.
pub fn class(b: u8) -> Kind
    ensures { number_of result ≡ class_of b }
{
    table().class(b)
}

// An ASCII letter, a digit or `_`.
pub fn is_word(b: u8) -> bool
    ensures { result ≡ is_word b }
{
    table().is_word(b)
}

// An ASCII letter or `_`, which a word may begin with.
pub fn is_letter(b: u8) -> bool
    ensures { result ≡ is_letter b }
{
    table().is_letter(b)
}

// Space, tab, LF, FF or CR.
pub fn is_space(b: u8) -> bool
    ensures { result ≡ is_space b }
{
    table().is_space(b)
}
