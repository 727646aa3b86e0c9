//! Rows in the order of their openings, with the index of their tokens.

ghost use Rattle.std.specs.Prelude.{◌≡◌, [], Some, true, filter, find, map, vec_capacity, vec_len};
ghost use Rattle.std.specs.Option.{option_copied};
ghost use Rattle.exchange_model.specs.Calls.{read_by};
ghost use Rattle.exchange_model.specs.Steps.{is_under, read_at, went_out};
ghost use Rattle.exchange_model.specs.Matters.{is_other};
ghost use Rattle.exchange_table.specs.Marks.{IsTable};
ghost use Rattle.exchange_table.specs.Places.{RiseBy};
ghost use Rattle.exchange_table.specs.Tables.{IsIndexed, IsNewest, carried_on, is_under_none, opening_of, went_on};

use crate::index::{Named, name_anew, name_place, number_of};
use crate::marks::{Mark, half_of, take_mark};
use crate::places::{opening_place, opening_place_late, place_named, place_under};
use coap_codec::Token;
use exchange_model::{Exchange, Reader, Work};

/// The exchange that the reader waits for.
pub fn read_by<'a>(rows: &'a [Exchange], reader: &Reader) -> Option<&'a Exchange>
    requires { RiseBy opening_of rows.now }
    ensures { option_copied result ≡ read_by rows.now reader.now }
{
    let place = opening_place(rows, reader.opening)?;
    Some(&rows[place])
}

/// The row whose latest message goes under the token.
pub fn row_under<'a>(rows: &'a [Exchange], names: &[Named], token: &Token) -> Option<&'a Exchange>
    requires { IsIndexed rows.now names.now }
    ensures { option_copied result ≡ find (is_under token.now) rows.now }
{
    let place = place_under(rows, names, token)?;
    Some(&rows[place])
}

/// The row's latest message went out, in the entry with this number.
fn go_out(row: &mut Exchange, number: u32)
    ensures { row.new ≡ record row.old { sending = Some number; awaits = true } }
{
    row.sending = Some(number);
    row.awaits = true;
}

/// Notes that the message under the token went out, in the entry with this number.
pub fn note_sending(rows: &mut [Exchange], names: &[Named], token: &Token, number: u32)
    requires { IsIndexed rows.old names.now }
    ensures { rows.new ≡ map (went_out token.now number) rows.old }
{
    if let Some(place) = place_under(rows, names, token) {
        go_out(&mut rows[place], number);
    }
}

/// The row goes on with its next message under this token.
fn continue_row(row: &mut Exchange, next: &Token, work: Work, is_first: bool)
    ensures { row.new ≡ carried_on next.now work is_first row.old }
{
    row.token = *next;
    row.awaits = false;
    row.observes = false;
    row.newest = is_first || row.newest;
    row.work = work;
}

/// The row under the token goes on with its next message under the next one, which was issued after
/// those of all others.
pub fn go_on(
    rows: &mut [Exchange],
    names: &mut Vec<Named>,
    token: &Token,
    next: &Token,
    work: Work,
    is_first: bool,
)
    requires indexed { IsIndexed rows.old names.old.items }
    requires newest { IsNewest next.now rows.old }
    ensures rows { rows.new ≡ map (went_on token.now next.now work is_first) rows.old }
    ensures names { IsIndexed rows.new names.new.items }
    ensures len { vec_len names.new ≡ vec_len names.old }
    ensures capacity { vec_capacity names.new ≡ vec_capacity names.old }
{
    if let Some(place) = place_under(rows, names.as_slice(), token) {
        continue_row(&mut rows[place], next, work, is_first);
        name_anew(names, number_of(token), number_of(next));
    }
}

/// The row is read by an ask at this moment.
fn read_row(row: &mut Exchange, moment: u64)
    ensures { row.new ≡ record row.old { asked = moment } }
{
    row.asked = moment;
}

/// An ask reads at this moment the row that the entry with this number opened.
pub fn read(rows: &mut [Exchange], opening: u32, moment: u64)
    requires { RiseBy opening_of rows.old }
    ensures { rows.new ≡ map (read_at moment opening) rows.old }
{
    if let Some(place) = opening_place_late(rows, opening) {
        read_row(&mut rows[place], moment);
    }
}

/// Takes out the row whose latest message goes under the token.
pub fn remove(
    rows: &mut Vec<Exchange>,
    names: &mut Vec<Named>,
    keys: &mut Vec<Mark>,
    places: &mut Vec<Mark>,
    token: &Token,
)
    requires { IsTable rows.old.items names.old.items keys.old.items places.old.items }
    ensures rows { rows.new.items ≡ filter (is_other token.now) rows.old.items }
    ensures table { IsTable rows.new.items names.new.items keys.new.items places.new.items }
{
    let Some(name) = name_place(names.as_slice(), number_of(token)) else {
        return;
    };
    if let Some(place) = place_named(rows.as_slice(), names.as_slice(), name, token) {
        let gone = rows.remove(place);
        names.remove(name);
        take_mark(keys, half_of(gone.digests.key), gone.opening);
        take_mark(places, half_of(gone.digests.place), gone.opening);
    }
}

/// Takes out the rows whose latest messages go under the tokens of these.
pub fn remove_all(
    rows: &mut Vec<Exchange>,
    names: &mut Vec<Named>,
    keys: &mut Vec<Mark>,
    places: &mut Vec<Mark>,
    over: &[Exchange],
)
    requires { IsTable rows.old.items names.old.items keys.old.items places.old.items }
    ensures rows { rows.new.items ≡ filter (is_under_none over.now) rows.old.items }
    ensures table { IsTable rows.new.items names.new.items keys.new.items places.new.items }
{
    'each: for exchange in over {
        remove(rows, names, keys, places, &exchange.token);
    }
}
