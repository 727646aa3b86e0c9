//! What holds of reading itself.

ghost use Rattle.std.specs.Prelude.{◌≡◌, ◌++◌, ℕ, List};
ghost use Rattle.http_edge.specs.Cuts.{HoweverCut, NoneHeldBack};
ghost use Rattle.http_edge.specs.Reading.{Item, First, Reads, AllOpen};
ghost use Rattle.http_edge.specs.Edges.{Waits, HasTooMany, Leaves};

/// Two readings of one text are one.
pub fn reading_is_one()
    ensures { (text : List ℕ) (is js : List Item) (r q : List ℕ) → Reads text is r → Reads text js q
        → (is ≡ js) × (r ≡ q) }
{}

/// Reading goes on where more stands after the rest.
pub fn reading_goes_on()
    ensures { (text more : List ℕ) (is js : List Item) (r q : List ℕ) → AllOpen is → Reads text is r
        → Reads (r ++ more) js q → Reads (text ++ more) (is ++ js) q }
{}

/// However a text is cut, its requests are given in order, and nothing else.
pub fn however_cut()
    ensures { HoweverCut }
{}

/// Where the last call answered None, the requests given are all that the bytes fed read as, or
/// the parser waits behind them.
pub fn none_held_back()
    ensures { NoneHeldBack }
{}

/// Where the parser waits though the text is refused, a 65th field has begun or the target is open.
pub fn waits_only()
    ensures { (text : List ℕ) (i : Item) (rest : List ℕ) → Waits text → First text i rest
        → HasTooMany text }
{}

/// What is left of a text of which no request is whole is one: however its bytes were cut, as many
/// wait unread.
pub fn unread_is_one()
    ensures { (text r q : List ℕ) → Leaves text r → Leaves text q → r ≡ q }
{}
