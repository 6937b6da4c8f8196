// The text that the report program prints (01, "Pixmaps and the report").
#![tactic(auto)]

mod lines;
mod pixmaps;
mod searches;

ghost use Rattle.std.specs.Prelude.{◌≡◌, ◌≤◌, length};
ghost use Rattle.report_text.specs.Report.{report_of};
ghost use Rattle.report_text.specs.Promises.{report_room, Empty, ReportAt, OutputIs, Printed};

use lines::put_refusal;
use pixmaps::put_file;
use std::io::Read;
use text::Writer;

// A file's lines, or the refusal that takes their place. The text has to be empty: a writer of its own type for that would be one before its first
// piece only.
fn put_all(to: &mut Writer, file: &[u8])
    requires { Empty to.old.text.now to.old.at }
    ensures same { to.new.text.ghost_name ≡ to.old.text.ghost_name }
    ensures written { ReportAt to.old.text.now (report_of file.now) to.new.text.now to.new.at }
{
    if let Err(refusal) = put_file(to, file) {
        put_refusal(to, refusal);
    }
}

// The report at the front of a text, and the place behind it.
fn put_report(text: &mut [u8], file: &[u8]) -> usize
    requires { report_room ≤ length text.old }
    ensures { ReportAt text.old (report_of file.now) text.new result }
{
    let mut to = Writer::new(text);
    put_all(&mut to, file);
    to.at
}

// What the report program prints: the first bytes of the text. The library has no heap, so the text has room for any report.
#[derive(Clone, Copy)]
pub struct Output {
    pub text: [u8; 320],
    pub length: usize,
}

// The report on a file, with zeros behind it.
pub fn report(file: &[u8]) -> Output
    ensures { OutputIs (report_of file.now) result }
{
    let mut text = [0u8; 320];
    let length = put_report(&mut text, file);
    Output { text, length }
}

// Reads until the buffer is full, the input ends or a read fails, and answers how many bytes stand at its front. The library's own reads want
// the whole buffer filled, or a heap.
fn read_full<R: Read>(input: &mut R, buffer: &mut [u8]) -> usize
    ensures { result ≤ length buffer.new }
{
    let mut count = 0;
    while count < buffer.len() {
        match input.read(&mut buffer[count..]) {
            Ok(0) | Err(_) => break,
            Ok(n) => count += n,
        }
    }
    count
}

// Prints the report on what an input gives, of which 8,193 bytes are enough to refuse it. Answers what it hands over to be written.
pub fn print_report<P: Print, R: Read>(rt: &P, input: &mut R) -> Output
    ensures { Printed result }
{
    let mut buffer = [0u8; 8193];
    let n = read_full(input, &mut buffer);
    let r = report(&buffer[..n]);
    match rt.write_all(&r.text[..r.length]) {
        Ok(()) | Err(_) => r,
    }
}
