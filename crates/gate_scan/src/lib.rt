// The scan of a tree: its texts blanked into work, its functions written as records.
// Kept: a host lends each buffer on its own, as C passes it, so that no struct holds the buffers of a call.
#![tactic(auto)]

ghost use Rattle.std.specs.Prelude.{◌≡◌, true, map, ◌+◌, ◌/◌, ◌<◌, ◌≤◌, min, length};
ghost use Rattle.source_rules.specs.TextScan.{functions};
ghost use Rattle.gate_rules.specs.RecordForms.{put_record, put_records};
ghost use Rattle.gate_rules.specs.Records.{blank_into, record_bytes, records};
ghost use Rattle.gate_rules.specs.Calls.{scan_call};
ghost use Rattle.gate_rules.specs.Gate.{gate};
ghost use Rattle.gate_rules.specs.Scan.{functions_of};
ghost use Rattle.gate_rules.specs.Tree.{is_laid_out, sources, tree_refusal};
ghost use Rattle.records.specs.Record.{numbers};
ghost use Rattle.gate_scan.specs.Scans.{Scans, blanked_work, filled, scan_answer};
ghost use Rattle.gate_scan.specs.Told.{Small, TextsIn, records_for, told};

use answers::Refusal;
use records::Record;
use source::{Cursor, Found};

// The most functions of a tree.
const MAX_FUNCTIONS: usize = 8192;

// The blanked bytes of each text, at the text's own place; the rest of work remains.
fn blank_texts(tree: &[u8], work: &mut [u8])
    requires { (is_laid_out tree.now ≡ true) × (length tree.now ≤ length work.old) }
    ensures { work.new ≡ blank_into (sources tree.now) work.old }
{
    let n = layout::file_count(tree);
    for k in 0..n {
        let text = layout::text_span(tree, k);
        blanking::blank_part(tree, work, text.start, text.end);
    }
}

// The functions that the records lent have room for, and no more than 8,192.
pub fn room(bytes: usize) -> usize
    ensures { result ≡ min 8192 (bytes / 32) }
{
    MAX_FUNCTIONS.min(bytes / records::RECORD_WIDTH)
}

// The record with a number, at its place, if there is room for it.
fn put_numbered(lent: &mut [u8], number: usize, r: Record)
    ensures { lent.new ≡ put_record number (record_bytes (numbers r)) lent.old }
{
    if number < room(lent.len()) {
        r.put(lent, number * records::RECORD_WIDTH);
    }
}

// The record of a function that was found in the text of a file.
fn record_of(number: usize, place: usize, f: Found) -> Record
    requires { Small number place f }
    ensures { numbers result ≡ told number place f }
{
    Record {
        file: number as u32,
        start: (place + f.name_at) as u32,
        len: f.name_len as u32,
        line: f.line as u32,
        lines: f.lines as u32,
        cyclomatic: f.cyclomatic as u32,
        nesting: f.nesting as u32,
        params: f.params as u32,
    }
}

// The records of a blanked text's functions, the first with the number `done`; answers the number behind the last. The cursor begins anew.
fn scan_text<'a>(
    s: &'a [u8],
    number: usize,
    place: usize,
    lent: &mut [u8],
    done: usize,
    cursor: &mut Cursor<'a>,
) -> usize
    requires { (number < 1024) × (place + length s.now ≤ 16777216) × (done ≤ 17179869184) }
    ensures { (result ≡ done + length (functions s.now))
        × (lent.new ≡ put_records done (records_for number place (functions s.now)) lent.old) }
{
    cursor.begin(s);
    let mut n = done;
    // Kept: `n` is counted beside the functions, since the count is the answer.
    for f in &mut *cursor {
        put_numbered(lent, n, record_of(number, place, f));
        n += 1;
    }
    n
}

// The records of the texts that stand blanked in work, file by file; answers how many functions there are.
fn scan_texts(tree: &[u8], work: &[u8], lent: &mut [u8]) -> usize
    requires { (is_laid_out tree.now ≡ true) × (length tree.now ≤ 16777216) × TextsIn tree.now work.now }
    ensures { (result ≡ length (records tree.now))
        × (lent.new ≡ put_records 0 (map record_bytes (records tree.now)) lent.old) }
{
    let n = layout::file_count(tree);
    let mut cursor = Cursor::new(&[]);
    let mut done = 0;
    for file in 0..n {
        let text = layout::text_span(tree, file);
        let from = text.start;
        done = scan_text(&work[text], file, from, lent, done, &mut cursor);
    }
    done
}

// The scan itself, of a tree that is not refused: work blanked, as many first records as there is room for. Answers the count of all functions.
pub fn scanned(tree: &[u8], work: &mut [u8], lent: &mut [u8]) -> usize
    requires { (tree_refusal tree.now ≡ 0) × (length tree.now ≤ length work.old) }
    ensures { (result ≡ length (functions_of gate tree.now))
        × (result ≤ 16777216)
        × (work.new ≡ blanked_work tree.now work.old lent.old)
        × (lent.new ≡ filled tree.now work.old lent.old) }
{
    blank_texts(tree, work);
    scan_texts(tree, work, lent)
}

// The call scan: the refusals 1 to 5 and 8; records in scan order. Answers how many functions there are.
pub fn scan(tree: &[u8], work: &mut [u8], lent: &mut [u8]) -> Result<u32, Refusal>
    ensures { Scans (scan_answer result) (scan_call gate tree.now work.old lent.old) work.new lent.new }
{
    tree::accept(tree)?;
    if work.len() < tree.len() {
        return Err(Refusal::Work);
    }
    let n = scanned(tree, work, lent);
    if room(lent.len()) < n {
        return Err(Refusal::Functions);
    }
    Ok(n as u32)
}
