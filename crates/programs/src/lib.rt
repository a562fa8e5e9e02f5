// What the programs share: reading the tree and the baseline, writing the baseline, printing. A read that fails is told from the end of the file,
// since only a missing baseline is an empty one.
#![tactic(auto)]

ghost use Rattle.std.specs.Prelude.{ℕ, ◌≡◌, ◌≤◌, List, [], ◌∷◌, ◌++◌, length, Ok, IfOk, IfSome};
ghost use Rattle.std.specs.Borrow.{MutBor};
ghost use Rattle.gate_rules.specs.Programs.{lent as zeros};
ghost use Rattle.text_rules.specs.Decimal.{decimal};
ghost use Rattle.io.specs.Counts.{IsPrefixLen};
ghost use Rattle.programs.specs.Lines.{Starts};

use arrayvec::ArrayString;
use listing::Writer;
use std::fmt::Write as _;
use std::fs::{OpenFile, OpenOptions, Permissions};
use std::io::{ErrorKind, Read, Write};
use std::os::unix::fs::{OpenOptionsExt, PermissionsExt};
use std::rt::Files;
use std::{fs, io};

// The baseline's file.
const BASELINE: &str = "tools/complexity-baseline.tsv";

// What is said where it cannot be read, and where it cannot be written.
const UNREAD: &str = "cannot read tools/complexity-baseline.tsv";

const UNWRITTEN: &str = "could not write tools/complexity-baseline.tsv";

// How many names are tried for the new file beside it.
const NAMES: u32 = 1000000;

// The bytes that a line's words may have.
const ROOM: usize = 320;

// Words that are put together, without an allocation.
type Words = ArrayString<ROOM>;

// Writes a line to standard error: what failed, a colon and the error's text, without the number that the system has for it.
fn fail(rt: &impl Eprint, what: &str, error: io::Error) {
    let mut words = Words::new();
    let _ = write!(words, "{error}");
    let text = words.as_str();
    let why = match text.split_once(" (os error ") {
        Some((why, _)) => why,
        None => text,
    };
    let _ = eprintln!(rt; "{what}: {why}");
}

// What came of trying. Where it failed this says why.
fn said<T: Drop>(rt: &impl Eprint, what: &str, tried: io::Result<T>) -> Option<T>
    ensures { IfSome result (λ value. tried ≡ Ok value) }
{
    match tried {
        Ok(value) => Some(value),
        Err(error) => {
            fail(rt, what, error);
            None
        }
    }
}

// Reads until the input ends or the buffer is full, and tells how many bytes were read.
fn read<R: Read>(input: &mut R, buf: &mut [u8]) -> io::Result<usize>
    ensures { IfOk result (λ count. IsPrefixLen count buf.new) }
{
    let mut at: usize = 0;
    // Kept: a read takes any number of bytes, so that no range counts them.
    while at < buf.len() {
        let more = input.read(&mut buf[at..])?;
        if more == 0 {
            break;
        }
        at += more;
    }
    Ok(at)
}

// The bytes of the tree, from standard input. Where this fails it says why.
pub fn read_tree<R: Input + Eprint>(rt: &R, buf: &mut [u8]) -> Option<usize>
    ensures { IfSome result (λ count. IsPrefixLen count buf.new) }
{
    let mut input = rt.reader();
    said(
        rt,
        "cannot read the tree from standard input",
        read(&mut input, buf),
    )
}

// The bytes of the baseline, none where it has no file: a missing file is an empty baseline. Where this fails it says why, before the file is closed.
pub fn read_baseline<R: Files + Eprint>(rt: &R, buf: &mut [u8]) -> Option<usize>
    ensures { IfSome result (λ count. IsPrefixLen count buf.new) }
{
    match fs::open(rt, BASELINE) {
        Ok(mut file) => said(rt, UNREAD, read(&mut file, buf)),
        Err(error) if error.kind() == ErrorKind::NotFound => Some(0),
        Err(error) => {
            fail(rt, UNREAD, error);
            None
        }
    }
}

// Makes a new file beside the baseline's, which nobody else may read yet, and tells its name. A name that another file has is not taken.
fn create_beside<R: Files>(rt: &R) -> io::Result<(R::File, Words)> {
    let mut how = OpenOptions::new();
    how.write(true).create_new(true).mode(0o600);
    for number in 0..NAMES {
        let mut name = Words::new();
        write!(name, "tools/complexity-baseline.tsv.{number:06}")?;
        match how.open(rt, name.as_str()) {
            Ok(file) => return Ok((file, name)),
            Err(error) if error.kind() == ErrorKind::AlreadyExists => {}
            Err(error) => return Err(error),
        }
    }
    Err(io::Error::from(ErrorKind::AlreadyExists))
}

// Writes an open file that others may read too, and waits until its bytes have reached the device.
fn put_bytes<F: Write + OpenFile>(file: &mut F, bytes: &[u8]) -> io::Result<()> {
    file.write_all(bytes)?;
    file.set_permissions(Permissions::from_mode(0o644))?;
    file.sync_all()
}

// Writes the new file and closes it. Where this fails it says why, before the file is closed.
fn fill<F: Write + OpenFile + Drop>(rt: &impl Eprint, mut file: F, bytes: &[u8]) -> Option<()> {
    said(rt, UNWRITTEN, put_bytes(&mut file, bytes))
}

// Writes the baseline's file: a new file beside it takes its name once it is whole, so that the old one stands until then. Where this fails it says
// why, then removes the new file, and answers none.
pub fn write_baseline<R: Files + Eprint>(rt: &R, bytes: &[u8]) -> Option<()> {
    let (file, name) = said(rt, UNWRITTEN, create_beside(rt))?;
    let replaced = fill(rt, file, bytes).and_then(|()| said(
        rt,
        UNWRITTEN,
        fs::rename(rt, name.as_str(), BASELINE),
    ));
    if replaced.is_none() {
        let _ = fs::remove_file(rt, name.as_str());
    }
    replaced
}

// Prints. Where this fails it says why.
pub fn print(rt: &(impl Print + Eprint), bytes: &[u8]) {
    let _ = said(rt, "cannot print", rt.write_all(bytes));
}

// Prints what a call makes at the start of an output. It is lent the bytes for its work, for its records and for that output, all of them 0.
pub fn print_made<R: Print + Eprint, F: FnOnce(&mut [u8], &mut [u8], &mut [u8]) -> usize>(
    rt: &R,
    make: F,
)
    requires lends { (w l o : MutBor (List ℕ)) → w.now ≡ zeros → l.now ≡ zeros → o.now ≡ zeros → F.pre make w l o }
    requires made { (w l o w' l' o' : MutBor (List ℕ)) (n : ℕ) → F.post make w l o n w' l' o' → IsPrefixLen n o'.now }
{
    let mut work = [0u8; 65536];
    let mut lent = [0u8; 65536];
    let mut output = [0u8; 65536];
    let n = make(&mut work, &mut lent, &mut output);
    print(rt, &output[..n]);
}

// A refusal's number and LF, at the start of the output.
// Kept: the number is any number; a refusal in its place would be a narrower type.
pub fn put_refusal(output: &mut [u8], number: u32) -> usize
    requires { 11 ≤ length output.old }
    ensures { Starts result output.new (decimal number ++ 10 ∷ []) }
{
    let mut line = Writer { out: output, at: 0 };
    line.number(u64::from(number));
    line.text(b"\n");
    line.at
}
