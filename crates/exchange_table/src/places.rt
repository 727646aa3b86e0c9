//! Where an exchange stands: in the order of openings, so none is looked for by going through all.

ghost use Rattle.std.specs.Prelude.{◌≡◌, ◌<◌, None, IfSome, length, nat_lt};
ghost use Rattle.std.specs.List.{list_any};
ghost use Rattle.std.specs.Str.{bytes_eq};
ghost use Rattle.exchange_model.specs.Steps.{is_under};
ghost use Rattle.history_laws.specs.Numbering.{token_number};
ghost use Rattle.exchange_table.specs.Places.{RiseBy, IsOnlyAt, IsNowhere};
ghost use Rattle.exchange_table.specs.Tables.{IsIndexed, has_number, is_opened_at, opening_of};

use crate::index::{Named, name_place, number_of};
use coap_codec::Token;
use exchange_model::Exchange;

/// The place of the exchange that the entry with this number opened.
pub fn opening_place(rows: &[Exchange], opening: u32) -> Option<usize>
    requires { RiseBy opening_of rows.now }
    ensures below { IfSome result (λ i. i < length rows.now) }
    ensures some { IfSome result (IsOnlyAt (is_opened_at opening) rows.now) }
    ensures none { result ≡ None → IsNowhere (is_opened_at opening) rows.now }
{
    let place = rows.partition_point(
        |exchange: &Exchange| -> bool
            ensures { result ≡ nat_lt exchange.now.opening opening }
        { exchange.opening < opening },
    );
    let exchange = rows.get(place)?;
    if exchange.opening == opening {
        Some(place)
    } else {
        None
    }
}

/// The place of the exchange that the entry with this number opened, which is looked for in this one
/// first.
fn opening_place_from(rows: &[Exchange], opening: u32, first: usize) -> Option<usize>
    requires { RiseBy opening_of rows.now }
    ensures below { IfSome result (λ i. i < length rows.now) }
    ensures some { IfSome result (IsOnlyAt (is_opened_at opening) rows.now) }
    ensures none { result ≡ None → IsNowhere (is_opened_at opening) rows.now }
{
    if let Some(exchange) = rows.get(first) {
        if exchange.opening == opening {
            return Some(first);
        }
    }
    opening_place(rows, opening)
}

/// The same, looked for in the last place first: equal GETs come close together, so what one joins
/// was most often opened last.
pub fn opening_place_late(rows: &[Exchange], opening: u32) -> Option<usize>
    requires { RiseBy opening_of rows.now }
    ensures below { IfSome result (λ i. i < length rows.now) }
    ensures some { IfSome result (IsOnlyAt (is_opened_at opening) rows.now) }
    ensures none { result ≡ None → IsNowhere (is_opened_at opening) rows.now }
{
    opening_place_from(rows, opening, rows.len().saturating_sub(1))
}

/// Whether an exchange is open that the entry with this number opened.
pub fn is_opened(rows: &[Exchange], opening: u32) -> bool
    requires { RiseBy opening_of rows.now }
    ensures { result ≡ list_any (is_opened_at opening) rows.now }
{
    opening_place(rows, opening).is_some()
}

/// Whether its latest message goes under the token.
fn is_under(exchange: &Exchange, token: &Token) -> bool
    ensures { result ≡ is_under token.now exchange.now }
{
    exchange.token.as_slice() == token.as_slice()
}

/// The place of the exchange whose latest message goes under the token, whose number has its name
/// in this place. Rows stand as names do but for exchanges that went on.
pub fn place_named(rows: &[Exchange], names: &[Named], name: usize, token: &Token) -> Option<usize>
    requires indexed { IsIndexed rows.now names.now }
    requires inside { name < length names.now }
    requires named { IsOnlyAt (has_number (token_number token.now)) names.now name }
    ensures below { IfSome result (λ i. i < length rows.now) }
    ensures some { IfSome result (IsOnlyAt (is_under token.now) rows.now) }
    ensures none { result ≡ None → IsNowhere (is_under token.now) rows.now }
{
    let opening = names[name].opening;
    let place = opening_place_from(rows, opening, name)?;
    if is_under(&rows[place], token) {
        Some(place)
    } else {
        None
    }
}

/// The place of the exchange whose latest message goes under the token.
pub fn place_under(rows: &[Exchange], names: &[Named], token: &Token) -> Option<usize>
    requires { IsIndexed rows.now names.now }
    ensures below { IfSome result (λ i. i < length rows.now) }
    ensures some { IfSome result (IsOnlyAt (is_under token.now) rows.now) }
    ensures none { result ≡ None → IsNowhere (is_under token.now) rows.now }
{
    let name = name_place(names, number_of(token))?;
    place_named(rows, names, name, token)
}
