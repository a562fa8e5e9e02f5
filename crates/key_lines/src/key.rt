// The key of a line.

ghost use Rattle.std.specs.Prelude.{◌≡◌, true};
ghost use Rattle.text_rules.specs.Classes.{tab};
ghost use Rattle.text_rules.specs.Search.{bytes_before};
ghost use Rattle.baseline.specs.Plain.{PlainKey};

use baseline::Bounds;

// The key of a line, and how many bytes its path has. A plain key is known to have one tab and no LF.
// Kept: `plain` marks no missing value, any key has its bytes and its path.
#[derive(Clone, Copy)]
pub struct Key<'a> {
    pub bytes: &'a [u8],
    pub path: usize,
    pub plain: bool,
    pub ghost path_is: { path ≡ bytes_before tab bytes.now },
    pub ghost plain_key: { plain ≡ true → PlainKey bytes.now path },
}

impl<'a> Key<'a> {
    ghost use Rattle.text_rules.specs.Search.{part};
    ghost use Rattle.baseline.specs.Plain.{PlainLine};

    // The key of the plain line at a place.
    pub fn plain(lines: &'a [u8], from: usize, line: Bounds) -> Key<'a>
        requires { PlainLine lines.now from line.path line.name line.end }
        ensures { (result.bytes.now ≡ part from line.name lines.now) × (result.path ≡ line.path) × (result.plain ≡ true) }
    {
        Key {
            bytes: &lines[from..line.name],
            path: line.path,
            plain: true,
        }
    }
}
