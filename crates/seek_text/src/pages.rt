// The text of a response, page by page.
ghost use Rattle.std.specs.Prelude.{◌≡◌, List, [], Ok, ℕ, ◌+◌, ◌≤◌, ◌<◌, length, get_or};
ghost use Rattle.rows.specs.Programme.{programme_of};
ghost use Rattle.patterns.specs.Searchable.{Searchable};
ghost use Rattle.decimal.specs.Printing.{Put};
ghost use Rattle.seek_print.specs.Inside.{line_most};
ghost use Rattle.seek_text.specs.Pages.{lines_of, PagePrinted};
ghost use Rattle.seek_text.specs.Inside.{Holds, Printable, LinePrinted};

use crate::search::Found;
use decimal::Printer;
use rows::{Programme, Refusal};
use seek_print::{LINE_MOST, put_count, put_match, put_refusal};

// The line of the match at p.
fn put_found(programme: Programme, pattern: &[u16], p: u16, to: &mut Printer)
    requires { Searchable (programme_of programme) pattern.now × (p < length programme.row.now) × (to.old.at + line_most ≤ length to.old.out.now) }
    ensures { LinePrinted (programme_of programme.entry) pattern.now p to.old to.new }
{
    let position = usize::from(p);
    let mut spans = [0u16; rows::SPAN_PLACES];
    // The pattern matches there, so the spans are written.
    let _ = searches::variables_at(programme, pattern, position, &mut spans);
    put_match(to, p, programme.table[position], &spans);
}

// How many lines a response has: the count's and one for each match; or the refusal's.
pub fn line_count(response: Result<Found, Refusal>) -> usize
    requires { (n t c y : List ℕ) × Printable response n t c y }
    ensures { (n t c y : List ℕ) → Printable response n t c y → result ≡ length (lines_of response n y) }
{
    match response {
        Err(_) => 1,
        Ok(found) => found.count + 1,
    }
}

// The number of the first line that is not printed yet, and how many bytes the page has.
#[derive(Clone, Copy, Debug, PartialEq, Eq)]
pub struct Page {
    pub next: usize,
    pub bytes: usize,
}

// A response, and the lists that it speaks of: the numbers of the input, the row's table and classes, and the positions of the matches.
#[derive(Clone, Copy)]
pub struct Told<'a> {
    pub response: Result<Found, Refusal>,
    pub numbers: &'a [u16],
    pub table: &'a [u16],
    pub classes: &'a [u16],
    pub positions: &'a [u16],
}

impl Told<'_> {
    // Line number i of what was found: the count; then each match's.
    fn put_numbered(&self, found: Found, i: usize, to: &mut Printer)
        requires { Holds found self.now.numbers.now self.now.table.now self.now.classes.now self.now.positions.now × (i ≤ found.count) × (to.old.at + line_most ≤ length to.old.out.now) }
        ensures { Put to.old (get_or (lines_of (Ok found) self.now.numbers.now self.now.positions.now) i []) to.new × (to.new.at ≤ length to.old.out.now) }
    {
        if i == 0 {
            put_count(to, found.count);
            return;
        }
        let lists = found.lists;
        let programme = Programme {
            row: &self.numbers[lists.arities..lists.row],
            table: self.table,
            classes: self.classes,
        };
        put_found(
            programme,
            &self.numbers[lists.row..lists.pattern],
            self.positions[i - 1],
            to,
        );
    }

    // Line number i of the response.
    fn put_line(&self, i: usize, to: &mut Printer)
        requires { Printable self.now.response self.now.numbers.now self.now.table.now self.now.classes.now self.now.positions.now × (i < length (lines_of self.now.response self.now.numbers.now self.now.positions.now)) × (to.old.at + line_most ≤ length to.old.out.now) }
        ensures { Put to.old (get_or (lines_of self.now.response self.now.numbers.now self.now.positions.now) i []) to.new × (to.new.at ≤ length to.old.out.now) }
    {
        match self.response {
            Err(refusal) => put_refusal(to, refusal),
            Ok(found) => self.put_numbered(found, i, to),
        }
    }

    // A page: the lines of the response from number `first` on, as many as the buffer has room for, at its front.
    pub fn print_page(&self, first: usize, out: &mut [u8]) -> Page
        requires { Printable self.now.response self.now.numbers.now self.now.table.now self.now.classes.now self.now.positions.now × (first ≤ length (lines_of self.now.response self.now.numbers.now self.now.positions.now)) × (line_most ≤ length out.old) }
        ensures { PagePrinted (lines_of self.now.response self.now.numbers.now self.now.positions.now) first result out.new }
    {
        let count = line_count(self.response);
        let room = out.len();
        let mut to = Printer { out, at: 0 };
        for i in first..count {
            if room - to.at < LINE_MOST {
                return Page {
                    next: i,
                    bytes: to.at,
                };
            }
            self.put_line(i, &mut to);
        }
        Page {
            next: count,
            bytes: to.at,
        }
    }
}
