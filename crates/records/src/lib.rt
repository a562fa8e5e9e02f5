// Records of functions: eight numbers in 32 bytes, written, read, and the name that a record tells of.
#![tactic(auto)]

ghost use Rattle.std.specs.Prelude.{◌≡◌, ◌+◌, ◌≤◌, length};
ghost use Rattle.text_rules.specs.Bytes.{put_at};
ghost use Rattle.text_rules.specs.Sizes.{record_width};
ghost use Rattle.gate_rules.specs.Records.{name_of, record_bytes};
ghost use Rattle.records.specs.Record.{ReadAt, numbers};

// The bytes of a record.
pub const RECORD_WIDTH: usize = 32;

#[derive(Clone, Copy, PartialEq, Eq, Debug)]
pub struct Record {
    pub file: u32,
    pub start: u32,
    pub len: u32,
    pub line: u32,
    pub lines: u32,
    pub cyclomatic: u32,
    pub nesting: u32,
    pub params: u32,
}

impl Record {
    // The record whose bytes begin at `at`.
    pub fn get(records: &[u8], at: usize) -> Record
        requires { at + record_width ≤ length records.now }
        ensures { ReadAt records.now at result }
    {
        Record {
            file: words::get_u32(records, at),
            start: words::get_u32(records, at + 4),
            len: words::get_u32(records, at + 8),
            line: words::get_u32(records, at + 12),
            lines: words::get_u32(records, at + 16),
            cyclomatic: words::get_u32(records, at + 20),
            nesting: words::get_u32(records, at + 24),
            params: words::get_u32(records, at + 28),
        }
    }

    // Its bytes from `at` on, and no other byte changed.
    #[tactic(auto, unfolding(gate_rules::specs::Records::record_bytes))]
    pub fn put(self, records: &mut [u8], at: usize)
        requires { at + record_width ≤ length records.old }
        ensures { records.new ≡ put_at at (record_bytes (numbers self)) records.old }
    {
        let numbers = [
            self.file,
            self.start,
            self.len,
            self.line,
            self.lines,
            self.cyclomatic,
            self.nesting,
            self.params,
        ];
        words::put_u32s(records, at, numbers);
    }

    // Its name: a part of the lent tree, or its empty part where the record leaves the tree.
    #[tactic(auto, unfolding(gate_rules::specs::Records::name_of))]
    pub fn name<'a>(self, tree: &'a [u8]) -> &'a [u8]
        ensures { result.now ≡ name_of tree.now (numbers self) }
    {
        let start = self.start as usize;
        let end = start + self.len as usize;
        tree.get(start..end).unwrap_or(&tree[..0])
    }
}
