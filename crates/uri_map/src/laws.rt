//! Laws of the definitions.

ghost use Rattle.std.specs.Prelude.{◌≡◌, ◌≤◌, ◌↔◌, ℕ, List, length, Some, Ok};
ghost use Rattle.std.specs.Net.Grammar.{IsIpv4Text, IsIpv6Text};
ghost use Rattle.coap_codec.specs.Spelling.{SpellsOptions};
ghost use Rattle.uri_map.specs.declared.target.Target.{Target};
ghost use Rattle.uri_map.specs.Authority.{ipv4_of, ipv6_of};
ghost use Rattle.uri_map.specs.Limits.{uri_options};
ghost use Rattle.uri_map.specs.Hosting.{hosting};
ghost use Rattle.uri_map.specs.Naming.{target_at};

/// An address is read from a text exactly where the text writes it.
pub fn addresses_read()
    ensures v4 { (text : List ℕ) (a : _) → (ipv4_of text ≡ Some a) ↔ IsIpv4Text text a }
    ensures v6 { (text : List ℕ) (a : _) → (ipv6_of text ≡ Some a) ↔ IsIpv6Text text a }
{}

/// The options of a target that a text names take at most 960 bytes of a message.
pub fn options_fit()
    ensures { (base text bytes : List ℕ) (t : Target) → target_at base text ≡ Ok t
        → SpellsOptions 0 (uri_options t) bytes → length bytes ≤ 960 }
{}

/// The text under which a target is hosted names that target again, whichever text named it. So no
/// two targets are hosted under one text.
pub fn hosted_is_read()
    ensures again { (base text : List ℕ) (t : Target) → target_at base text ≡ Ok t
        → target_at base (hosting base t) ≡ Ok t }
    ensures only { (base text other : List ℕ) (t u : Target) → target_at base text ≡ Ok t
        → target_at base other ≡ Ok u → hosting base t ≡ hosting base u → t ≡ u }
{}
