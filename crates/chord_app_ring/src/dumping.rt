//! All pairs of a server, page by page.
ghost use Rattle.std.specs.Prelude.{◌≡◌, ◌+◌, ◌-◌, ◌^◌, ◌||◌, min, Result, IsTrue, IfOk, IfErr, OnOk, string_bytes};
ghost use Rattle.std.specs.List.{count_by};
ghost use Rattle.std.specs.Io.KnownBytes.{Appends};
ghost use Rattle.chord_app_operator.specs.declared.request.calls.PairsRequest.{PairsRequest};
ghost use Rattle.chord_app_ring.specs.declared.fault.RingFault.{RingFault};
ghost use Rattle.chord_app_ring.specs.declared.page.Page.{Page};
ghost use Rattle.chord_app_ring.specs.Dumping.{is_end, is_lost_in, last_of, lost_words, lost_line, count_line, notes_of, IsUnwritten, WritesLine, IsNextPage, IsDumped};

use crate::fault::RingFault;
use crate::page::{Page, PageTurn, first_behind, request_behind};
use chord_app_operator::{PageState, PairsRequest, id_text};
use chord_ident::Id;
use std::alloc::{AllocError, Global};
use std::io::Write;

/// How often the same page is asked for while its pairs are under way.
pub const PAGE_TRIES: u64 = 100;

/// Why pairs are not all copied.
#[derive(Debug, Drop)]
pub enum DumpFault {
    Ring(RingFault),
    /// Pairs stayed under way at each try.
    UnderWay,
    /// The pairs, or what is passed over, cannot be written.
    Write,
    Memory,
}

/// Who tells pages of pairs.
pub trait PageTeller {
    /// In this state the request may get this answer, which leaves the next state.
    ghost tells: { Self → PairsRequest → Result Page RingFault → Self → Type 0 };

    /// Asks for a page.
    fn page(&mut self, request: PairsRequest) -> Result<Page, RingFault>
        ensures { tells self.old request result self.new };

    /// Lets a moment pass before the same page is asked for again.
    fn rest(&self);
}

// The page behind an identifier, once it is not under way.
fn next_page<T: PageTeller>(teller: &mut T, after: Option<Id>) -> Result<Page, DumpFault>
    ensures { IsNextPage T.tells after teller.old result teller.new }
{
    for tries in 0..PAGE_TRIES {
        if tries > 0 {
            teller.rest();
        }
        let page = match teller.page(request_behind(after)) {
            Ok(page) => page,
            Err(fault) => return Err(DumpFault::Ring(fault)),
        };
        match page.turn(after) {
            Some(PageTurn::UnderWay) => drop(page),
            Some(PageTurn::End) | Some(PageTurn::On(_)) => return Ok(page),
            None => {
                drop(page);
                return Err(DumpFault::Ring(RingFault::NotUnderstood));
            }
        }
    }
    Err(DumpFault::UnderWay)
}

// How many lines end in a text.
fn lines_in(text: &[u8]) -> u64
    ensures { result ≡ count_by is_end text.now }
{
    let mut lines = 0u64;
    for byte in text {
        if *byte == b'\n' {
            lines += 1;
        }
    }
    lines
}

// How many pairs there are with those of a page, of which at most 2^64 - 1 are told.
fn with_lines(pairs: u64, page: &Page) -> u64
    ensures { result ≡ min (pairs + count_by is_end page.now.lines.items) (2 ^ 64 - 1) }
{
    pairs.saturating_add(lines_in(&page.lines))
}

// Whether something was lost, also with a page.
fn with_state(is_lost: bool, state: PageState) -> bool
    ensures { result ≡ (is_lost || is_lost_in state) }
{
    is_lost || state == PageState::Lost
}

// Writes a text, if it can be written.
fn write_text<W: Write>(writer: &mut W, text: &[u8]) -> bool
    ensures { IsTrue result → Appends (W.contents writer.old) (W.contents writer.new) text.now }
{
    writer.write_all(text).is_ok() && writer.flush().is_ok()
}

// Writes the same, or says why not.
fn write_line<W: Write>(writer: &mut W, line: Result<String, AllocError>) -> Result<(), DumpFault>
    ensures written { OnOk result (WritesLine line (W.contents writer.old) (W.contents writer.new)) }
    ensures fault { IfErr result IsUnwritten }
{
    let Ok(line) = line else {
        return Err(DumpFault::Memory);
    };
    let is_written = write_text(writer, line.as_bytes());
    drop(line);
    if is_written {
        Ok(())
    } else {
        Err(DumpFault::Write)
    }
}

fn last_of(next: Option<Id>) -> Id
    ensures { result ≡ last_of next }
{
    match next {
        Some(next) => next,
        None => Id::new(u128::MAX),
    }
}

fn lost_words(alloc: Global, first: &str, last: &str) -> Result<String, AllocError>
    ensures { IfOk result (λ line. string_bytes line ≡ lost_words first.now last.now) }
{
    format!(in alloc; "lost {first} to {last}\n")
}

// The line that says which identifiers are passed over.
fn lost_line(alloc: Global, first: Id, last: Id) -> Result<String, AllocError>
    ensures { IfOk result (λ line. string_bytes line ≡ lost_line first last) }
{
    let from = id_text(alloc, first)?;
    let to = id_text(alloc, last)?;
    lost_words(alloc, &from, &to)
}

// The last line of a copy.
fn count_line(alloc: Global, pairs: u64) -> Result<String, AllocError>
    ensures { IfOk result (λ line. string_bytes line ≡ count_line pairs) }
{
    format!(in alloc; "# pairs {pairs}\n")
}

// Says which identifiers a page passes over, if it does.
fn write_note<E: Write>(errors: &mut E, after: Option<Id>, page: &Page) -> Result<(), DumpFault>
    ensures written { OnOk result (Appends (E.contents errors.old) (E.contents errors.new) (notes_of after page.now)) }
    ensures fault { IfErr result IsUnwritten }
{
    match page.state {
        PageState::Lost => {
            let alloc = *page.lines.allocator();
            let line = lost_line(alloc, first_behind(after), last_of(page.next));
            write_line(errors, line)
        }
        PageState::Held | PageState::UnderWay => Ok(()),
    }
}

// Writes the lines of a page, and says what it passes over.
fn write_page<W: Write, E: Write>(
    writer: &mut W,
    errors: &mut E,
    after: Option<Id>,
    page: &Page,
) -> Result<(), DumpFault>
    ensures written { OnOk result (Appends (W.contents writer.old) (W.contents writer.new) page.now.lines.items) }
    ensures noted { OnOk result (Appends (E.contents errors.old) (E.contents errors.new) (notes_of after page.now)) }
    ensures fault { IfErr result IsUnwritten }
{
    if !write_text(writer, &page.lines) {
        return Err(DumpFault::Write);
    }
    write_note(errors, after, page)
}

/// Writes the lines of all pages to `writer`, from the first to the last, and then the number of
/// pairs; and to `errors` which identifiers were lost. Says whether any were. Memory is taken for a
/// page at a time.
pub fn dump<T: PageTeller, W: Write, E: Write>(
    alloc: Global,
    teller: &mut T,
    writer: &mut W,
    errors: &mut E,
) -> Result<bool, DumpFault>
    ensures { IsDumped T.tells teller.old result (W.contents writer.old) (W.contents writer.new) (E.contents errors.old) (E.contents errors.new) teller.new }
{
    let mut after = None;
    let mut pairs = 0u64;
    let mut is_lost = false;
    loop {
        let page = next_page(teller, after)?;
        let next = page.next;
        pairs = with_lines(pairs, &page);
        is_lost = with_state(is_lost, page.state);
        let written = write_page(writer, errors, after, &page);
        drop(page);
        written?;
        match next {
            Some(next) => after = Some(next),
            None => {
                write_line(writer, count_line(alloc, pairs))?;
                return Ok(is_lost);
            }
        }
    }
}
