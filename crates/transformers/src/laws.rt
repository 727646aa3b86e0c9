//! Laws of the relations, for readers of the definitions and for proofs above.
ghost use Rattle.std.specs.Prelude.{◌≡◌, ◌≤◌, ℕ, List, length, Some};
ghost use Rattle.serde_json.specs.Data.{Data};
ghost use Rattle.transformers.specs.Item.{denoted};
ghost use Rattle.transformers.specs.Kinds.{CborToJson, IsBytes, IsInProfile, IsShortestOf, JsonToCbor, TakesCbor, TakesJson};
ghost use Rattle.transformers.specs.Shortest.{shortest};

/// Each input has at most one output, and is taken where it has one.
pub fn one_output()
    ensures from_cbor { (x y z : List ℕ) → CborToJson x y → CborToJson x z → y ≡ z }
    ensures from_json { (x y z : List ℕ) → JsonToCbor x y → JsonToCbor x z → y ≡ z }
    ensures cbor_taken { (x y : List ℕ) → CborToJson x y → TakesCbor x }
    ensures json_taken { (x y : List ℕ) → JsonToCbor x y → TakesJson x }
{}

/// JSON that was made of a CBOR item is taken, and gives that item's shortest encoding.
pub fn through_json()
    ensures taken { (x y : List ℕ) → CborToJson x y → TakesJson y }
    ensures shortest { (x y z : List ℕ) → CborToJson x y → JsonToCbor y z → IsShortestOf x z }
{}

/// The shortest encoding of what an item denotes is unique, is its own shortest encoding, and
/// denotes the same.
pub fn shortest_unique()
    ensures one { (x y z : List ℕ) → IsShortestOf x y → IsShortestOf x z → y ≡ z }
    ensures itself { (x z : List ℕ) → IsShortestOf x z → IsShortestOf z z }
    ensures tells { (x y z : List ℕ) → IsShortestOf x z → IsShortestOf y z → denoted x ≡ denoted y }
{}

/// An item that is taken denotes a value of the profile: no number that is not whole, and at most
/// 32 arrays and maps within one another.
pub fn taken_in_profile()
    ensures { (x : List ℕ) (d : Data) → denoted x ≡ Some d → IsInProfile d }
{}

/// No item that denotes a value is shorter than the one that is written.
pub fn none_shorter()
    ensures { (x : List ℕ) (d : Data) → IsBytes x → denoted x ≡ Some d
        → length (shortest d) ≤ length x }
{}
