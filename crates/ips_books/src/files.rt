//! The account files as lines.

ghost use Rattle.std.specs.Prelude.{◌≡◌, ◌==◌, ◌++◌, ◌∷◌, ◌<◌, false, length, IfOk, OnOk, IfNone, IfSome};
ghost use Rattle.std.specs.List.{list_any, position};
ghost use Rattle.ips_text.specs.Reading.{Gives};
ghost use Rattle.ips_books.specs.Lines as lines_spec;
ghost use Rattle.ips_books.specs.Accounts as spec;
ghost use Rattle.ips_books.specs.Reading as reading_spec;
ghost use Rattle.ips_books.specs.Seen.{as_line, files_seen, texts};

use crate::books::{Book, Books};
use crate::fault::AccountFault;
use crate::line::{Line, field, is_kept, number_of};
use ips_text::Or;
use std::alloc::{AllocError, Global};

/// The three files, as lines.
#[derive(Drop)]
pub struct Files {
    pub passwd: Vec<Line>,
    pub shadow: Vec<Line>,
    pub group: Vec<Line>,
}

/// Reads the three files, or tells the first line that isn't one of its file, passwd before shadow before group.
pub fn read_books(alloc: Global, base: &Books) -> Result<Files, Or<AccountFault>>
    ensures { Gives files_seen result (reading_spec.read_books (texts base.now)) }
{
    let passwd = read_book(alloc, Book::Passwd, &base.passwd)?;
    let shadow = read_book(alloc, Book::Shadow, &base.shadow)?;
    let group = read_book(alloc, Book::Group, &base.group)?;
    Ok(Files {
        passwd,
        shadow,
        group,
    })
}

// Reads a file, or tells the first line that isn't one of it.
fn read_book(alloc: Global, book: Book, text: &[u8]) -> Result<Vec<Line>, Or<AccountFault>>
    ensures { Gives (λ lines. lines.items) result (reading_spec.read_book book text.now) }
{
    let lines = lines_of(alloc, text)?;
    match bad_line(book, &lines) {
        Some(place) => Err(Or::Bad(AccountFault::BadAccountLine {
            book,
            line: place as u64 + 1,
        })),
        None => Ok(lines),
    }
}

// The place of the first line that isn't one of the file.
fn bad_line(book: Book, lines: &[Line]) -> Option<usize>
    ensures { result ≡ spec.bad_line book lines.now }
{
    lines.iter().position(|line| !is_sound(book, line.text()))
}

// Whether the line is one of the file.
fn is_sound(book: Book, line: &[u8]) -> bool
    ensures { result ≡ spec.is_sound book (as_line line.now) }
{
    is_kept(line) || (field_count(line) == width(book) && is_numbered(book, line))
}

// How many fields a line has.
fn field_count(line: &[u8]) -> usize
    ensures { result ≡ length (spec.fields (as_line line.now)) }
{
    line.split(|b| *b == b':').count()
}

// How many fields the lines of a file have.
fn width(book: Book) -> usize
    ensures { result ≡ spec.width book }
{
    match book {
        Book::Passwd => 7,
        Book::Shadow => 9,
        Book::Group => 4,
    }
}

// Whether the line has a number, where lines of this file have one.
fn is_numbered(book: Book, line: &[u8]) -> bool
    ensures { result ≡ spec.is_numbered book (as_line line.now) }
{
    match book {
        Book::Passwd | Book::Group => number_of(line).is_some(),
        Book::Shadow => true,
    }
}

/// The lines of a text.
pub fn lines_of(alloc: Global, text: &[u8]) -> Result<Vec<Line>, AllocError>
    ensures { IfOk result (λ lines. lines.items ≡ lines_spec.account_lines text.now) }
{
    let mut lines = Vec::new(alloc);
    let mut rest = text;
    while let Some((front, behind)) = first_line(rest) {
        lines.push(Line::new(Vec::from_slice(alloc, front)?, true))?;
        rest = behind;
    }
    if !rest.is_empty() {
        lines.push(Line::new(Vec::from_slice(alloc, rest)?, false))?;
    }
    Ok(lines)
}

// What stands before the first newline, and what behind it.
fn first_line(text: &[u8]) -> Option<(&[u8], &[u8])>
    ensures none { IfNone result (list_any (λ b. b == 10) text.now ≡ false) }
    ensures some { IfSome result (λ cut. text.now ≡ cut.0.now ++ 10 ∷ cut.1.now) }
    ensures first { IfSome result (λ cut. list_any (λ b. b == 10) cut.0.now ≡ false) }
{
    match newline(text) {
        Some(at) => Some((&text[..at], &text[at + 1..])),
        None => None,
    }
}

// The place of the first newline.
fn newline(text: &[u8]) -> Option<usize>
    ensures place { result ≡ position (λ b. b == 10) text.now }
    ensures within { IfSome result (λ at. at < length text.now) }
{
    text.iter().position(|b| *b == b'\n')
}

/// The texts of the files.
pub fn print_books(
    alloc: Global,
    passwd: &[Line],
    shadow: &[Line],
    group: &[Line],
) -> Result<Books, AllocError>
    ensures { IfOk result (λ books. texts books ≡ reading_spec.texts_of (record { passwd = passwd.now; shadow = shadow.now; group = group.now })) }
{
    let passwd = text_of(alloc, passwd)?;
    let shadow = text_of(alloc, shadow)?;
    let group = text_of(alloc, group)?;
    Ok(Books {
        passwd,
        shadow,
        group,
    })
}

// The text of lines.
fn text_of(alloc: Global, lines: &[Line]) -> Result<Vec<u8>, AllocError>
    ensures { IfOk result (λ text. text.items ≡ lines_spec.account_text lines.now) }
{
    let mut text = Vec::new(alloc);
    for line in lines {
        push_line(&mut text, line)?;
    }
    Ok(text)
}

// Writes the line behind the text.
fn push_line(text: &mut Vec<u8>, line: &Line) -> Result<(), AllocError>
    ensures { OnOk result (text.new.items ≡ text.old.items ++ lines_spec.line_bytes line.now) }
{
    text.extend_from_slice(line.text())?;
    if line.is_ended() {
        text.push(b'\n')?;
    }
    Ok(())
}
