//! Where connections stand: in the order of their numbers, so none is looked for by going through
//! all.

ghost use Rattle.std.specs.Prelude.{◌≡◌, ◌<◌, None, IfSome, length, nat_lt};
ghost use Rattle.exchange_core.specs.Places.{has_id, id_of};
ghost use Rattle.exchange_table.specs.Places.{RiseBy, IsOnlyAt, IsNowhere};

use exchange_model::Conn;

/// The place of the connection with this number.
pub fn conn_place(conns: &[Conn], id: u32) -> Option<usize>
    requires { RiseBy id_of conns.now }
    ensures below { IfSome result (λ i. i < length conns.now) }
    ensures some { IfSome result (IsOnlyAt (has_id id) conns.now) }
    ensures none { result ≡ None → IsNowhere (has_id id) conns.now }
{
    let place = conns.partition_point(
        |conn: &Conn| -> bool
            ensures { result ≡ nat_lt conn.now.id id }
        { conn.id < id },
    );
    let conn = conns.get(place)?;
    if conn.id == id { Some(place) } else { None }
}
