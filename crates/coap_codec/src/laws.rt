//! Laws of the spelling and of reading. They have no code: each says in its contract what
//! proofs about messages may use.

ghost use Rattle.std.specs.Prelude.{◌≡◌, ◌≢◌, ◌<◌, ◌++◌, ◌⊎◌, ℕ, List, All, Ok, Err};
ghost use Rattle.coap_codec.specs.Spelling.{Content, Spells};
ghost use Rattle.coap_codec.specs.Faults.{FirstFault};
ghost use Rattle.coap_codec.specs.Reading.{message_at};
ghost use Rattle.coap_codec.specs.Writing.{IsEncodable, IsInRange};
ghost use Rattle.coap_codec.specs.declared.fault.CodecFault.{CodecFault};

/// A message has one spelling.
pub fn spelled_once()
    ensures { (m : Content) (a b : List ℕ) → Spells m a → Spells m b → a ≡ b }
{}

/// Bytes spell one message.
pub fn spells_one()
    ensures { (m n : Content) (a : List ℕ) → Spells m a → Spells n a → m ≡ n }
{}

/// A message that may be encoded has a spelling, which is read as that message.
pub fn encoded_is_read()
    ensures { (m : Content) → IsEncodable m → IsInRange m
        → (bytes : List ℕ) × Spells m bytes × (message_at bytes ≡ Ok m) }
{}

/// Reading gives a message exactly where the bytes spell it.
pub fn spelled_is_read()
    ensures found { (m : Content) (bytes : List ℕ) → All (λ b. b < 256) bytes
        → message_at bytes ≡ Ok m → Spells m bytes }
    ensures only { (m : Content) (bytes : List ℕ) → Spells m bytes → message_at bytes ≡ Ok m }
{}

/// Bytes either spell a message or have a first fault, and never both; and they have one at most.
pub fn spelled_or_faulty()
    ensures either { (bytes : List ℕ) → All (λ b. b < 256) bytes
        → ((m : Content) × Spells m bytes) ⊎ ((f : CodecFault) × FirstFault bytes f) }
    ensures not_both { (m : Content) (f : CodecFault) (bytes : List ℕ) → Spells m bytes
        → FirstFault bytes f → ⊥ }
    ensures one_fault { (f g : CodecFault) (bytes : List ℕ) → FirstFault bytes f
        → FirstFault bytes g → f ≡ g }
{}

/// Reading gives a fault exactly where it is the first one.
pub fn fault_is_read()
    ensures found { (f : CodecFault) (bytes : List ℕ) → All (λ b. b < 256) bytes
        → message_at bytes ≡ Err f → FirstFault bytes f }
    ensures only { (f : CodecFault) (bytes : List ℕ) → FirstFault bytes f
        → message_at bytes ≡ Err f }
{}

/// A fault stays however the bytes go on, except those that more bytes can mend.
pub fn fault_stays()
    ensures { (f : CodecFault) (bytes more : List ℕ) → f ≢ CodecFault.Short
        → f ≢ CodecFault.Truncated → f ≢ CodecFault.EmptyPayload → FirstFault bytes f
        → FirstFault (bytes ++ more) f }
{}
