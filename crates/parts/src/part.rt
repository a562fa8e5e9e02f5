// The part of a text that is noted.

ghost use Rattle.std.specs.Prelude.{◌+◌, ◌≤◌, ◌<◌, length};

use chunks::TextSums;

// A text with the sums of its chunks, and the part of it that is noted: where it begins, and how many places it has.
#[derive(Clone, Copy)]
pub struct Part<'a> {
    pub text: TextSums<'a>,
    pub from: usize,
    pub many: usize,
    ghost inside: { from + many ≤ length text.text.now },
    ghost some: { 1 ≤ many },
    ghost many_most: { many ≤ 2048 },
    ghost small: { length text.text.now < 4294967295 },
}
