//! The page: its title, the lines of clients, gateway and devices, a row for each entry, and what
//! the arrows mean.

ghost use Rattle.std.specs.Prelude.{◌≤◌, length};

use crate::entry::{Event, Written};
use crate::extent::Extent;
use crate::fault::PictureFault;
use crate::head::{FOOT, HEAD, STYLE};
use crate::journal::{Journal, Row, journal_of};
use crate::label::{Label, label_of};
use crate::layout::{Layout, TOP};
use crate::page::Page;
use crate::rows::{write_grounds, write_row};
use std::alloc::{AllocError, Global};
use std::str::from_utf8;

/// What is drawn, and where it stands.
#[derive(Drop)]
struct Drawing<'a> {
    journal: Journal<'a>,
    /// The rows.
    labels: Vec<Label<'a>>,
    layout: Layout,
}

/// Draws the journal of these lines.
pub fn draw(alloc: Global, bytes: &[u8]) -> Result<Page, PictureFault> {
    drawn(alloc, bytes, Extent::Whole)
}

/// Draws these lines, which are a part of a journal. The numbers of its entries ascend, each
/// connection that it names is opened in it, and entries that an answer names may be left out.
pub fn draw_part(alloc: Global, bytes: &[u8]) -> Result<Page, PictureFault> {
    drawn(alloc, bytes, Extent::Part)
}

/// Draws so much of a journal.
fn drawn(alloc: Global, bytes: &[u8], extent: Extent) -> Result<Page, PictureFault> {
    let text = match from_utf8(bytes) {
        Ok(text) => text,
        Err(error) => return Err(PictureFault::NotText(line_at(bytes, error.valid_up_to()))),
    };
    let journal = journal_of(alloc, text, extent)?;
    let drawing = drawing_of(alloc, journal)?;
    let mut page = Page::new(alloc);
    write_page(&mut page, &drawing)?;
    Ok(page)
}

/// The line, counted from 1, of the byte at that place.
fn line_at(bytes: &[u8], place: usize) -> u64
    requires { place ≤ length bytes.now }
{
    let ends = bytes[..place].iter().filter(|b| **b == b'\n').count();
    (ends as u64).saturating_add(1)
}

/// Places the rows. Each answer takes the next response, if that went out on its connection at its
/// moment.
fn drawing_of(alloc: Global, journal: Journal<'_>) -> Result<Drawing<'_>, AllocError> {
    let (first, clients) = (journal.first(), journal.connections());
    let mut layout = Layout::new(first, clients, journal.devices());
    let mut labels = Vec::new(alloc);
    let mut told: usize = 0;
    'each: for number in 0..journal.entries().len() {
        if let Some(row) = journal.row(number) {
            let response = response_to(&row, journal.written().get(told));
            if response.is_some() {
                told = told.saturating_add(1);
            }
            let mut label = label_of(alloc, row, response)?;
            layout.place(&mut label);
            labels.push(label)?;
        }
    }
    Ok(Drawing {
        journal,
        labels,
        layout,
    })
}

/// The digits of the response, if it was written as that entry.
fn response_to<'b>(row: &Row<'b>, response: Option<&Written<'b>>) -> Option<&'b str> {
    let Event::Answered(answer) = row.entry.event else {
        return None;
    };
    match response {
        Some(it) if it.connection == answer.connection && it.moment == row.entry.moment => {
            Some(it.digits)
        }
        _ => None,
    }
}

/// Writes the page.
fn write_page(page: &mut Page, drawing: &Drawing<'_>) -> Result<(), AllocError> {
    write_head(page, drawing)?;
    write_lines(page, drawing.layout, &drawing.journal)?;
    'grounds: for label in &drawing.labels {
        write_grounds(page, drawing.layout, label, &drawing.labels)?;
    }
    'each: for label in &drawing.labels {
        write_row(page, drawing.layout, label)?;
    }
    write_meanings(page, drawing.layout.bottom.saturating_add(72))?;
    page.markup(FOOT)
}

/// Writes what stands before the lines.
fn write_head(page: &mut Page, drawing: &Drawing<'_>) -> Result<(), AllocError> {
    let size = [drawing.layout.width(), drawing.layout.height()];
    page.markup(HEAD)?;
    page.drawn(
        "<svg xmlns=\"http://www.w3.org/2000/svg\" width=\"{}\" height=\"{}\">\n",
        &size,
    )?;
    page.markup(STYLE)?;
    page.markup("<text class=\"title\" x=\"24\" y=\"40\">What happened</text>\n")?;
    page.markup("<text class=\"plain\" x=\"24\" y=\"62\">")?;
    write_count(page, &drawing.journal)?;
    page.markup("</text>\n")
}

/// Writes how many entries there are, and how long they took.
fn write_count(page: &mut Page, journal: &Journal<'_>) -> Result<(), AllocError> {
    let entries = journal.entries();
    let (Some(first), Some(last)) = (entries.first(), entries.last()) else {
        return page.words("The journal is empty.");
    };
    let count = entries.len() as u64;
    page.told(
        if count == 1 {
            "{} entry in "
        } else {
            "{} entries in "
        },
        &[count],
    )?;
    page.moment(last.moment.saturating_sub(first.moment))?;
    page.words(": the number of each and its moment, and what came or went.")
}

/// Writes the lines of the clients, the gateway and the devices, with their names.
fn write_lines(page: &mut Page, layout: Layout, journal: &Journal<'_>) -> Result<(), AllocError> {
    'client: for place in 0..layout.clients {
        let connection = layout.first.saturating_add(place);
        let mut name = page.beside();
        name.told("client {}", &[u64::from(connection)])?;
        write_line(page, layout, "client", layout.client(connection), &name)?;
    }
    let mut name = page.beside();
    name.words("gateway")?;
    write_line(page, layout, "gateway", layout.gateway(), &name)?;
    'device: for (place, device) in journal.devices().iter().enumerate() {
        let mut name = page.beside();
        name.text(device.as_bytes())?;
        write_line(page, layout, "device", layout.device(place as u64), &name)?;
    }
    Ok(())
}

/// Writes a line from top to bottom, with its name in a box at both ends.
fn write_line(
    page: &mut Page,
    layout: Layout,
    kind: &'static str,
    at: u64,
    name: &Page,
) -> Result<(), AllocError> {
    let end = layout.bottom;
    let width = name.columns().saturating_mul(8).saturating_add(20);
    page.element("path", "life", " d=\"M{},{}V{}\"/>", &[at, TOP, end])?;
    'each: for top in [TOP, end.saturating_add(8)] {
        page.element(
            "rect",
            kind,
            " rx=\"6\" height=\"28\" x=\"{}\" y=\"{}\" width=\"{}\"/>",
            &[at.saturating_sub(width / 2), top, width],
        )?;
        page.line(
            "<text class=\"name\" text-anchor=\"middle\" x=\"{}\" y=\"{}\">",
            &[at, top.saturating_add(19)],
            name,
        )?;
    }
    page.markup("\n")
}

/// How the arrows and curves look, where they stand from the left, and what they mean.
static MEANINGS: [(&str, u64, &str); 5] = [
    ("coap", 24, "a datagram"),
    ("copy", 176, "a copy of one before it"),
    ("lost", 416, "no answer came in time"),
    ("rests", 650, "what an answer rests on"),
    ("cause", 884, "the cause of an error"),
];

/// Writes what the arrows and curves mean, at that place from the top.
fn write_meanings(page: &mut Page, top: u64) -> Result<(), AllocError> {
    'each: for (class, left, words) in MEANINGS {
        page.element("path", class, " d=\"M{},{}h40\"/>", &[left, top])?;
        page.drawn(
            "<text class=\"plain\" x=\"{}\" y=\"{}\">",
            &[left.saturating_add(52), top.saturating_add(4)],
        )?;
        page.words(words)?;
        page.markup("</text>\n")?;
    }
    Ok(())
}
