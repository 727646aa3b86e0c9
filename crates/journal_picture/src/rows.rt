//! The rows of the picture: one for each entry.

use crate::entry::{Answer, Event, Grounds, decimal};
use crate::journal::Row;
use crate::label::Label;
use crate::layout::{Layout, is_slight};
use crate::page::Page;
use std::alloc::AllocError;

/// Writes the row of an entry.
pub(crate) fn write_row(
    page: &mut Page,
    layout: Layout,
    label: &Label<'_>,
) -> Result<(), AllocError> {
    begin_row(page, layout, label)?;
    write_arrow(page, layout, &label.row)?;
    write_label(page, layout, label)?;
    page.markup("</g>\n")
}

/// Begins a row, with its line for who points at it, its number and its moment.
fn begin_row(page: &mut Page, layout: Layout, label: &Label<'_>) -> Result<(), AllocError> {
    let entry = label.row.entry;
    page.drawn(
        "<g id=\"e{}\" transform=\"translate(0,{})\"><title>",
        &[entry.number, label.top],
    )?;
    page.text(entry.line.as_bytes())?;
    page.drawn(
        "</title><rect class=\"row\" x=\"8\" y=\"-22\" height=\"40\" rx=\"6\" width=\"{}\"/>",
        &[layout.width().saturating_sub(16)],
    )?;
    page.markup("<text class=\"number\" text-anchor=\"end\" x=\"48\" y=\"4\">")?;
    page.shown(entry.number)?;
    page.markup("</text><text class=\"number\" text-anchor=\"end\" x=\"146\" y=\"4\">")?;
    page.moment(entry.moment)?;
    page.markup("</text>")
}

/// Writes the arrow of an entry, between a client or a device and the gateway, or else a mark on
/// the gateway's line. The arrow of a copy is faint.
fn write_arrow(page: &mut Page, layout: Layout, row: &Row<'_>) -> Result<(), AllocError> {
    let gateway = layout.gateway();
    let is_copy = row.entry.carried.is_some();
    let (from, to) = match row.entry.event {
        Event::Asked(_, _) | Event::Bad(_) if is_copy => return write_dot(page, gateway),
        Event::Opened(connection) | Event::Asked(connection, _) | Event::Bad(connection) => {
            (layout.client(connection), gateway)
        }
        Event::Shut(connection) | Event::Answered(Answer { connection, .. }) => {
            (gateway, layout.client(connection))
        }
        Event::Sent(_) => (gateway, layout.device(row.mark.device)),
        Event::Heard(_) => (layout.device(row.mark.device), gateway),
        Event::Passed | Event::Sealed => return write_dot(page, gateway),
    };
    if is_copy {
        page.element(
            "path",
            "life",
            " marker-end=\"url(#coap)\" d=\"M{},0H{}\"/>",
            &[from, to],
        )
    } else {
        page.element("path", style_of(row), " d=\"M{},0H{}\"/>", &[from, to])
    }
}

/// Writes a mark on the gateway's line, which stands there.
fn write_dot(page: &mut Page, gateway: u64) -> Result<(), AllocError> {
    page.drawn("<circle r=\"4\" cx=\"{}\"/>", &[gateway])
}

/// How an arrow looks.
fn style_of(row: &Row<'_>) -> &'static str {
    match row.entry.event {
        Event::Opened(_) | Event::Shut(_) => "open",
        Event::Asked(_, _) | Event::Bad(_) | Event::Answered(_) => "http",
        _ if row.is_lost() => "lost",
        _ if row.mark.copies > 0 => "copy",
        _ => "coap",
    }
}

/// Writes the words of an entry, which begin after the last client's line, or after the gateway's.
fn write_label(page: &mut Page, layout: Layout, label: &Label<'_>) -> Result<(), AllocError> {
    let entry = &label.row.entry;
    let line = if entry.is_far() {
        layout.gateway()
    } else {
        layout.last_client()
    };
    let left = [line.saturating_add(16)];
    if is_slight(&entry.event) {
        return page.line(
            "<text class=\"small\" y=\"4\" x=\"{}\">",
            &left,
            &label.head,
        );
    }
    page.drawn("<text y=\"-8\" x=\"{}\">", &left)?;
    page.piece(&label.head)?;
    if label.mark.columns() > 0 {
        page.markup("<tspan class=\"mark\" dx=\"10\">")?;
        page.piece(&label.mark)?;
        page.markup("</tspan>")?;
    }
    page.markup("</text>")?;
    page.line(
        "<text class=\"small\" y=\"15\" x=\"{}\">",
        &left,
        &label.under,
    )?;
    page.line(
        "<text class=\"small\" y=\"30\" x=\"{}\">",
        &left,
        &label.options,
    )
}

/// Writes a curve on the gateway's line, to the answer's row from each entry that the answer rests
/// on, or from the one that shows the cause of an error.
pub(crate) fn write_grounds(
    page: &mut Page,
    layout: Layout,
    label: &Label<'_>,
    labels: &[Label<'_>],
) -> Result<(), AllocError> {
    let Event::Answered(answer) = label.row.entry.event else {
        return Ok(());
    };
    let ends = [layout.gateway(), label.top];
    match answer.grounds {
        Grounds::Live(numbers) | Grounds::Kept(numbers) => {
            'each: for one in numbers.split(',') {
                if let Ok(number) = decimal(one) {
                    write_curve(page, "rests", ends, top_of(labels, number))?;
                }
            }
            Ok(())
        }
        Grounds::Fault(_, number) => write_curve(page, "cause", ends, top_of(labels, number)),
    }
}

/// Where the entry of that number stands, from the top, if it is there.
fn top_of(labels: &[Label<'_>], number: u64) -> Option<u64> {
    let place = labels.binary_search_by_key(&number, |label| label.row.entry.number);
    Some(labels.get(place.ok()?)?.top)
}

/// Writes a curve on a line, from a place to one below it. What isn't there has none.
fn write_curve(
    page: &mut Page,
    class: &'static str,
    [line, to]: [u64; 2],
    from: Option<u64>,
) -> Result<(), AllocError> {
    let Some(from) = from else { return Ok(()) };
    let bent = line.saturating_sub((12 + to.saturating_sub(from) / 12).min(32));
    page.element(
        "path",
        class,
        " d=\"M{},{}C{},{} {},{} {},{}\"/>\n",
        &[line, from, bent, from, bent, to, line, to],
    )
}
