// The lines of a file read into a store, with refusals 2 to 5.
#![tactic(auto)]

ghost use Rattle.std.specs.Prelude.{◌≡◌, ◌≤◌, length};
ghost use Rattle.format.specs.Limits.{byte_limit};
ghost use Rattle.format.specs.Read.{read_lines, no_lines, read_file};
ghost use Rattle.calls.specs.Layout.{store_size};
ghost use Rattle.load_line.specs.Line.{Stored};
ghost use Rattle.load_lines.specs.File.{FileIs, line_refusal};

use format::{Reason, Refusal};
use load_line::{LineRead, load_line};
use progress::Progress;

// What reading a whole file finds: what has been read, or the first line that fails and why.
pub type FileRead = Result<Progress, Refusal>;

// The refusal of a line that is not kept.
fn line_refusal(answer: LineRead, line: usize) -> Refusal
    ensures { result ≡ line_refusal answer line }
{
    answer.err().unwrap_or(Reason::NotALine).at(line)
}

// Reads the lines of a file from the second on into a store whose bytes are 0.
fn load_rest(file: &[u8], start: usize, store: &mut [u8]) -> FileRead
    requires store_size_in_bounds { store_size ≤ length store.old }
    requires stored { Stored store.old no_lines }
    requires file_len_bound { length file.now ≤ byte_limit }
    ensures { FileIs (read_lines (length file.now) file.now start 2 no_lines) store.old result store.new }
{
    let mut at = start;
    let mut p = Progress {
        rows: 0,
        flows: 0,
        comms: 0,
        claims: 0,
        flow_least: 0,
        comm_least: 0,
        claim_least: 0,
    };
    let end = file.len() + 2;
    for line in 2..end {
        if at == file.len() {
            if p.rows == 0 {
                return Err(Reason::OutOfCount.at(line));
            }
            return Ok(p);
        }
        let answer = load_line(file, at, store, p);
        let Ok((q, next)) = answer else {
            return Err(line_refusal(answer, line));
        };
        p = q;
        at = next;
    }
    Err(Reason::NotALine.at(end))
}

// Reads a file into a store whose bytes are 0.
#[tactic(auto, unfolding(format::specs::Print::header, format::specs::Text::ascii))]
pub fn load_lines(file: &[u8], store: &mut [u8]) -> FileRead
    requires store_size_in_bounds { store_size ≤ length store.old }
    requires stored { Stored store.old no_lines }
    requires file_len_bound { length file.now ≤ byte_limit }
    ensures { FileIs (read_file file.now) store.old result store.new }
{
    let Some(start) = read_text::expect(file, 0, b"[dispenser 1]\n") else {
        return Err(Reason::NotALine.at(1));
    };
    load_rest(file, start, store)
}
