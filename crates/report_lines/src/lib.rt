// The lines of a report, written at a position.
#![tactic(auto)]

ghost use Rattle.std.specs.Prelude.{◌∷◌, ◌<◌};
ghost use Rattle.write_bytes.specs.Write.{Room, Wrote};
ghost use Rattle.report.specs.Report.{refused_text, accepted_text, yes_no_text, words_text, channel_text};

use format::Refusal;

// Writes `[refused NUMBER LINE]`.
#[tactic(auto, using(write_bytes::proofs::Writing::room_first, write_bytes::proofs::Writing::room_then, crate::proofs::Parts::same_room, crate::proofs::Parts::same_argument), unfolding(report::specs::Report::refused_text, format::specs::Text::ascii))]
pub fn put_refused(out: &mut [u8], at: usize, refusal: Refusal) -> usize
    requires line_bound { refusal.line < 65536 }
    requires room { Room out.old at (refused_text refusal) }
    ensures { Wrote out.old at (refused_text refusal) result out.new }
{
    let line = refusal.line as u16;
    let code = refusal_numbers::number(refusal.reason) as u16;
    let p = write_text::put_word(out, at, b"[refused");
    let q = write_text::put_argument(out, p, code);
    let r = write_text::put_argument(out, q, line);
    write_text::put_word(out, r, b"]\n")
}

// Writes `[accepted N]`.
#[tactic(auto, using(write_bytes::proofs::Writing::room_first, write_bytes::proofs::Writing::room_then), unfolding(report::specs::Report::accepted_text, format::specs::Text::ascii))]
pub fn put_accepted(out: &mut [u8], at: usize, claims: u16) -> usize
    requires { Room out.old at (accepted_text claims) }
    ensures { Wrote out.old at (accepted_text claims) result out.new }
{
    let p = write_text::put_word(out, at, b"[accepted");
    let q = write_text::put_argument(out, p, claims);
    write_text::put_word(out, q, b"]\n")
}

// Writes a byte, and `yes` or `no` behind it.
#[tactic(auto, unfolding(report::specs::Report::yes_no_text, format::specs::Text::ascii))]
fn put_yes_no(out: &mut [u8], at: usize, before: u8, word: bool) -> usize
    requires { Room out.old at (before ∷ yes_no_text word) }
    ensures { Wrote out.old at (before ∷ yes_no_text word) result out.new }
{
    let p = write_text::put_byte(out, at, before);
    if word {
        write_text::put_word(out, p, b"yes")
    } else {
        write_text::put_word(out, p, b"no")
    }
}

// Writes `[yes no ..]`.
fn put_words(out: &mut [u8], at: usize, words: [bool; 5]) -> usize
    requires { Room out.old at (words_text words) }
    ensures { Wrote out.old at (words_text words) result out.new }
{
    let mut next = at;
    let mut before = b'[';
    for word in words {
        next = put_yes_no(out, next, before, word);
        before = b' ';
    }
    write_text::put_byte(out, next, b']')
}

// Writes `[channel R [yes no ..]]`.
pub fn put_channel(out: &mut [u8], at: usize, row: u16, words: [bool; 5]) -> usize
    requires { Room out.old at (channel_text row words) }
    ensures { Wrote out.old at (channel_text row words) result out.new }
{
    let p = write_text::put_head(out, at, b"[channel", row);
    let q = put_words(out, p, words);
    write_text::put_word(out, q, b"]\n")
}
