// What the programs share: reading a file of the working folder whole, and the bytes that they print: the list that a call gave, a figure, or
// `refused=` and the number.
#![tactic(auto)]

ghost use Rattle.std.specs.Prelude.{◌≡◌, ◌+◌, ◌<◌, ◌≤◌, ◌^◌, IfOk, length, take};
ghost use Rattle.definitions.specs.Answers.{printed_answer, printed_looks};
ghost use Rattle.definitions.specs.Checked.{accepted, refused};
ghost use Rattle.definitions.specs.Numbers.{decimal};
ghost use Rattle.files.specs.FileTexts.{Below, has_failed, has_text, text_length, too_long};
ghost use Rattle.files.specs.Printing.{AnswerPrinted};
ghost use Rattle.kv_write.specs.Keyed.{keyed};
ghost use Rattle.kv_write.specs.Laid.{Laid};

use std::io::{ErrorKind, Read};
use std::rt::Files;
use std::{fs, io};

// ---- a file

// Why there is no text of a file that was to be read.
#[derive(Clone, Copy)]
pub enum ReadError {
    TooLong,
    Failed,
}

// What came of reading a file: how many bytes it has, `None` if there is no such file, or why there is no text of it.
pub type FileRead = Result<Option<usize>, ReadError>;

// A line on standard error: what failed, and why. One that can't be written is let be.
fn fail(rt: &impl Eprint, what: &str, error: io::Error) {
    let _ = eprintln!(rt; "{what}: {error}");
}

// One read behind the bytes that are there.
pub fn read_behind(reader: &mut impl Read, buffer: &mut [u8], count: usize) -> io::Result<usize>
    requires { count ≤ length buffer.old }
    ensures { IfOk result (λ n. count + n ≤ length buffer.old) }
{
    reader.read(&mut buffer[count..])
}

// Reads an open file to its end. It must end before the buffer does.
fn read_to_end(
    rt: &impl Eprint,
    file: &mut impl Read,
    name: &str,
    buffer: &mut [u8],
) -> Result<usize, ReadError>
    ensures { IfOk result (λ n. n < length buffer.old) }
{
    let mut count = 0;
    // a read says how far the next one begins behind
    while count < buffer.len() {
        let more = match read_behind(file, buffer, count) {
            Ok(more) => more,
            Err(error) => {
                fail(rt, name, error);
                return Err(ReadError::Failed);
            }
        };
        if more == 0 {
            return Ok(count);
        }
        count += more;
    }
    Err(ReadError::TooLong)
}

// Reads the file with this name, which must have fewer bytes than the buffer. One that is there and can't be read gets a line on
// standard error, as does a name that is no UTF-8.
pub fn read_file<R: Files + Eprint>(rt: &R, name: &[u8], buffer: &mut [u8]) -> FileRead
    ensures { Below (length buffer.old) result }
{
    let Ok(name) = str::from_utf8(name) else {
        fail(
            rt,
            "a file's name",
            io::Error::from(ErrorKind::InvalidFilename),
        );
        return Err(ReadError::Failed);
    };
    match fs::open(rt, name) {
        Ok(mut file) => {
            let count = read_to_end(rt, &mut file, name, buffer)?;
            Ok(Some(count))
        }
        Err(error) if error.kind() == ErrorKind::NotFound => Ok(None),
        Err(error) => {
            fail(rt, name, error);
            Err(ReadError::Failed)
        }
    }
}

pub fn is_failed(read: FileRead) -> bool
    ensures { result ≡ has_failed read }
{
    matches!(read, Err(ReadError::Failed))
}

pub fn is_too_long(read: FileRead) -> bool
    ensures { result ≡ too_long read }
{
    matches!(read, Err(ReadError::TooLong))
}

// Whether there is a text.
pub fn is_text(read: FileRead) -> bool
    ensures { result ≡ has_text read }
{
    matches!(read, Ok(Some(_)))
}

// How many bytes the text has, 0 without one.
fn text_length(read: FileRead) -> usize
    ensures { result ≡ text_length read }
{
    match read {
        Ok(Some(count)) => count,
        _ => 0,
    }
}

// The text that was read into a buffer, or an empty one.
pub fn text<'a>(read: FileRead, buffer: &'a [u8]) -> &'a [u8]
    ensures { result.now ≡ take (text_length read) buffer.now }
{
    let count = text_length(read);
    tables::part(buffer, 0, count)
}

// ---- what is printed

// Lays a number of any size in decimal digits.
fn put_decimal(out: &mut [u8], at: usize, n: usize) -> usize
    requires { at + length (decimal n) < 2 ^ 64 }
    ensures { Laid out.old at (decimal n) out.new result }
{
    if n < 10 {
        return kv_write::put_byte(out, at, 48 + n as u8);
    }
    let next = put_decimal(out, at, n / 10);
    kv_write::put_byte(out, next, 48 + (n % 10) as u8)
}

// Lays a key with its `=`, a number and LF over the start of a buffer, as far as they fit.
fn put_number_line(out: &mut [u8], key: &[u8], number: usize) -> usize
    requires { length key.now ≤ 32 }
    ensures { Laid out.old 0 (keyed key.now (decimal number)) out.new result }
{
    let behind_key = kv_write::put_bytes(out, 0, key);
    let behind_number = put_decimal(out, behind_key, number);
    kv_write::put_byte(out, behind_number, b'\n')
}

// Lays `refused=`, the number and LF over the start of a buffer, as far as they fit.
pub fn put_refusal(out: &mut [u8], number: usize) -> usize
    ensures { Laid out.old 0 (printed_answer (refused number)) out.new result }
{
    put_number_line(out, b"refused=", number)
}

// The same for `looks=` and a figure.
pub fn put_figure(out: &mut [u8], figure: usize) -> usize
    ensures { Laid out.old 0 (printed_looks (accepted figure)) out.new result }
{
    put_number_line(out, b"looks=", figure)
}

// Makes what a program prints, in the buffer that a call wrote its list to: the list, or the refusal over its start. The answer is how many
// bytes that is.
pub fn put_answer<R: Into<usize>>(outcome: Result<usize, R>, list: &mut [u8; 65536]) -> usize
    ensures { AnswerPrinted R.converts outcome list.old list.new result }
{
    match outcome {
        Ok(count) => count.min(list.len()),
        Err(refusal) => {
            let row = refusal.into();
            put_refusal(list, row)
        }
    }
}

// Writes the first bytes of a buffer to standard output.
pub fn print_first<R: Print + Eprint>(rt: &R, bytes: &[u8], count: usize) {
    if let Err(error) = rt.write_all(tables::part(bytes, 0, count)) {
        fail(rt, "standard output", error);
    }
}
