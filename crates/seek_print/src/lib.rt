// The answer of `seek` as text: a refusal, the number of the matches, and the line of a match.
#![tactic(auto)]

ghost use Rattle.std.specs.Prelude.{◌+◌, ◌≤◌, length};
ghost use Rattle.rows.specs.Limits.{variables};
ghost use Rattle.decimal.specs.Printing.{Put};
ghost use Rattle.seek_print.specs.Print.{refusal_text, count_text, span_text, spans_text, match_text};
ghost use Rattle.seek_print.specs.Inside.{span_most, spans_most, line_most};

use decimal::Printer;
use rows::Refusal;

// How many variables there are.
// Stays `as`: a constant is computed without calls.
const VARIABLES: usize = rows::VARIABLES as usize;
// The most bytes of a line.
pub const LINE_MOST: usize = 1053;

// `refused N P`, where the buffer has room for a line.
pub fn put_refusal(to: &mut Printer, refusal: Refusal)
    requires { to.old.at + line_most ≤ length to.old.out.now }
    ensures { Put to.old (refusal_text refusal) to.new × (to.new.at ≤ to.old.at + line_most) }
{
    to.put_bytes(b"refused");
    to.put_marked(b' ', refusal_numbers::number_of(refusal));
    to.put_marked(b' ', refusal_numbers::place_of(refusal));
    to.put_byte(b'\n');
}

// `matches K`, where the buffer has room for a line.
pub fn put_count(to: &mut Printer, count: usize)
    requires { to.old.at + line_most ≤ length to.old.out.now }
    ensures { Put to.old (count_text count) to.new × (to.new.at ≤ to.old.at + line_most) }
{
    to.put_bytes(b"matches");
    to.put_marked(b' ', count);
    to.put_byte(b'\n');
}

// ` V:B-E`, for a variable that the pattern has; nothing for one that it lacks.
#[tactic(auto, using(decimal::proofs::Putting::put_none), unfolding(crate::specs::Print::span_text))]
fn put_span(to: &mut Printer, variable: usize, begin: u16, end: u16)
    requires { to.old.at + span_most ≤ length to.old.out.now }
    ensures { Put to.old (span_text variable begin end) to.new × (to.new.at ≤ to.old.at + span_most) }
{
    if end == 0 {
        return;
    }
    to.put_marked(b' ', variable);
    to.put_marked(b':', usize::from(begin));
    to.put_marked(b'-', usize::from(end));
}

// The spans of the variables, rising.
fn put_spans(to: &mut Printer, spans: &[u16])
    requires { (to.old.at + spans_most ≤ length to.old.out.now) × (variables + variables ≤ length spans.now) }
    ensures { Put to.old (spans_text spans.now variables) to.new × (to.new.at ≤ to.old.at + spans_most) }
{
    for v in 0..VARIABLES {
        put_span(to, v, spans[v + v], spans[v + v + 1]);
    }
}

// `at P E` and the spans: the line of a match, where the buffer has room for a line.
pub fn put_match(to: &mut Printer, position: u16, end: u16, spans: &[u16])
    requires { (to.old.at + line_most ≤ length to.old.out.now) × (variables + variables ≤ length spans.now) }
    ensures { Put to.old (match_text position end spans.now) to.new × (to.new.at ≤ to.old.at + line_most) }
{
    to.put_bytes(b"at");
    to.put_marked(b' ', usize::from(position));
    to.put_marked(b' ', usize::from(end));
    put_spans(to, spans);
    to.put_byte(b'\n');
}
