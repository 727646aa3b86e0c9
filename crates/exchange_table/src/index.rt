//! The index of the tokens of latest messages.

ghost use Rattle.std.specs.Prelude.{◌≡◌, ◌<◌, None, IfSome, length, nat_lt, vec_capacity, vec_len};
ghost use Rattle.history_laws.specs.Numbering.{token_number};
ghost use Rattle.exchange_table.specs.Places.{RiseBy, IsOnlyAt, IsNowhere};
ghost use Rattle.exchange_table.specs.Tables.{has_number, named_anew, number_in, opening_under};

use coap_codec::Token;

/// Which of the tokens that were issued an exchange's latest message goes under.
#[derive(Clone, Copy)]
pub struct Named {
    /// how many tokens were issued before it
    pub number: u32,
    /// the number of the entry that opened the exchange
    pub opening: u32,
}

/// How many tokens were issued before it, as its first bytes say.
pub fn number_of(token: &Token) -> u32
    ensures { result ≡ token_number token.now }
{
    match token.as_slice() {
        [a, b, c, d, ..] => u32::from_be_bytes([*a, *b, *c, *d]),
        _ => 0,
    }
}

/// The place of the name with this number.
pub fn name_place(names: &[Named], number: u32) -> Option<usize>
    requires { RiseBy number_in names.now }
    ensures below { IfSome result (λ i. i < length names.now) }
    ensures some { IfSome result (IsOnlyAt (has_number number) names.now) }
    ensures none { result ≡ None → IsNowhere (has_number number) names.now }
{
    let place = names.partition_point(
        |name: &Named| -> bool
            ensures { result ≡ nat_lt name.now.number number }
        { name.number < number },
    );
    let name = names.get(place)?;
    if name.number == number {
        Some(place)
    } else {
        None
    }
}

/// Takes out the name with this number, and puts the next one of its exchange last. It takes no
/// memory.
pub fn name_anew(names: &mut Vec<Named>, number: u32, next: u32)
    requires { RiseBy number_in names.old.items }
    ensures items { names.new.items
        ≡ named_anew number next (opening_under number names.old.items) names.old.items }
    ensures len { vec_len names.new ≡ vec_len names.old }
    ensures capacity { vec_capacity names.new ≡ vec_capacity names.old }
{
    if let Some(place) = name_place(names.as_slice(), number) {
        let name = names.remove(place);
        names.push_reserved(Named {
            number: next,
            opening: name.opening,
        });
    }
}
