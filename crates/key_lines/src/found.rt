// What is found in a line of a baseline.

ghost use Rattle.std.specs.Prelude.{◌≡◌, ◌<◌, length};
ghost use Rattle.std.specs.Option.{ForSome};
ghost use Rattle.baseline.specs.Ordered.{fallen};
ghost use Rattle.key_lines.specs.Keys.{Meets, repeats_last, text_of};

use crate::key::Key;

// What is found in a line: the last key in front of it, its own key, which goes past its path, how many bytes the last key has in common with the
// line, and where the next line begins. Where the key is plain, the last key is compared with all that stands from the start of the line on.
#[derive(Clone, Copy)]
pub struct Found<'a> {
    pub last: Option<Key<'a>>,
    pub key: Option<Key<'a>>,
    pub common: usize,
    pub next: usize,
    pub ghost inside: { ForSome key (λ k. k.path < length k.bytes.now) },
    pub ghost meets: { ForSome key (λ k. Meets (text_of last) k.bytes.now common) },
}

impl Found<'_> {
    // Whether the key stands before the last one. Where one of them is missing, it does not.
    pub fn falls(self) -> bool
        ensures { result ≡ fallen (text_of self.entry.last) (text_of self.entry.key) }
    {
        let (Some(key), Some(last)) = (self.key, self.last) else {
            return false;
        };
        let common = self.common;
        if key.bytes.len() <= common {
            return key.bytes.len() < last.bytes.len();
        }
        if last.bytes.len() <= common {
            return false;
        }
        key.bytes[common] < last.bytes[common]
    }

    // Whether the key is the last one. Where one of them is missing, it is not.
    pub fn repeats(self) -> bool
        ensures { result ≡ repeats_last (text_of self.entry.last) (text_of self.entry.key) }
    {
        let (Some(key), Some(last)) = (self.key, self.last) else {
            return false;
        };
        if self.common < key.bytes.len() {
            return false;
        }
        last.bytes.len() == key.bytes.len()
    }
}
