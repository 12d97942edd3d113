//! Laws of the definitions.
ghost use Rattle.std.specs.Prelude.{◌≡◌, ◌≢◌, ◌⊎◌, ℕ, ◌+◌, ◌<◌, ◌≤◌, List, []};
ghost use Rattle.std.specs.Prelude.{◌∷◌, ◌++◌, length, Option, Some, None, All};
ghost use Rattle.ciborium_ll.specs.declared.hdr.Header.{Header};
ghost use Rattle.ciborium_ll.specs.declared.hdr.Header.TheVariants.{Bytes};
ghost use Rattle.ciborium_ll.specs.Title.{Title, Begins, IsCut, StartsBad};
ghost use Rattle.ciborium_value.specs.declared.kind.Kind.TheVariants.{BigNegative};
ghost use Rattle.ciborium_value.specs.Encoding.{enc, Fits};
ghost use Rattle.ciborium_value.specs.Folding.{fold};
ghost use Rattle.ciborium_value.specs.Tree.{Tree, depth};
ghost use Rattle.ciborium_value.specs.View.{view};
ghost use Rattle.ciborium.specs.Spelling.{Spells};
ghost use Rattle.ciborium.specs.Meaning.{meaning, Assigned};
ghost use Rattle.ciborium.specs.Damage.{Fault, semantic, Damage, IsLevel};
ghost use Rattle.ciborium.specs.Damaged.{Damaged};
ghost use Rattle.ciborium.specs.Front.{Front, Reads};
ghost use Rattle.ciborium.specs.Items.{Item, ItemsWithin, item_at};
ghost use Rattle.ciborium.specs.Fitting.{EachFits};
ghost use Rattle.ciborium_traits.specs.Events.{Event};
ghost use Rattle.ciborium.specs.Typed.{ReadsAs};

use crate::value::{Integer, Value};
use ciborium_ll::Float;
pub use ciborium_typed::laws as typed;
use ciborium_typed::{Deserialize, RoundTrip, Serialize, Sink};
pub use ciborium_value::laws as values;
use std::convert::Infallible;

/// No spelling begins another, and one list spells at most one tree.
pub fn one_spelling()
    ensures { (t s : Tree) (a b u v : List ℕ) → Spells a t → Spells b s → a ++ u ≡ b ++ v
        → (t ≡ s) × (a ≡ b) }
{}

/// Another title of the same header in the first place spells the same tree: a head may be wider
/// than it has to be (RFC 8949, section 3).
pub fn other_titles_spell()
    ensures { (h : Header) (a b rest : List ℕ) (t : Tree) → Title a h → Title b h
        → Spells (a ++ rest) t → Spells (b ++ rest) t }
{}

/// Another title of the same header in the first place has the same faults, the place in `Syntax`
/// aside.
pub fn other_titles_fail()
    ensures { (h : Header) (a b rest : List ℕ) (stop limit : ℕ) (f : Fault) → Title a h → Title b h
        → length (b ++ rest) ≤ stop → Damage stop (a ++ rest) limit f
        → Damaged stop (b ++ rest) limit f }
{}

/// A meaning means itself. It is folded, and each simple value in it is false, true or null.
pub fn meanings_are_folded()
    ensures means { (t v : Tree) → meaning t ≡ Some v → meaning v ≡ Some v }
    ensures folded { (t v : Tree) → meaning t ≡ Some v → fold v ≡ Some v }
    ensures assigned { (t v : Tree) → meaning t ≡ Some v → Assigned v }
{}

/// Damage and a front exclude each other: bytes that begin a readable item have no fault there.
pub fn damage_is_no_front()
    ensures { (stop limit : ℕ) (b rest : List ℕ) (e : Fault) (v : Tree) → Damage stop b limit e
        → Front b limit v rest → ⊥ }
{}

/// A tag that opens no level over damaged bytes is a bignum's, and these begin with the head of a
/// byte string, with a cut one or with none.
pub fn free_tags()
    ensures { (stop limit n : ℕ) (b : List ℕ) (f : Fault) → Damage stop b limit f
        → (IsLevel n b → ⊥) → ((n ≡ 2) ⊎ (n ≡ 3))
        × (((o : Option ℕ) × (rest : List ℕ) × Begins b (Bytes o) rest) ⊎ (IsCut b ⊎ StartsBad b)) }
{}

/// The encoding of a tree whose parts fit spells that tree, and trees with one encoding are one. No
/// encoding begins another.
pub fn encoding_spells()
    ensures spells { (t : Tree) → Fits t → Spells (enc t) t }
    ensures once { (t s : Tree) → Fits t → Fits s → enc t ≡ enc s → t ≡ s }
    ensures prefix { (t s : Tree) (u v : List ℕ) → Fits t → Fits s → enc t ++ u ≡ enc s ++ v
        → (t ≡ s) × (u ≡ v) }
{}

/// Bytes begin a readable item, or have a fault there. The place after the last of them is `stop`.
pub fn front_or_damage()
    ensures { (stop limit : ℕ) (b : List ℕ) → All (λ x. x < 256) b → length b ≤ stop
        → ((v : Tree) × (rest : List ℕ) × Front b limit v rest)
        ⊎ ((e : Fault) × Damage stop b limit e) }
{}

/// Each input is a list of items that are readable within the limit and then a rest, if nothing is
/// left or no such item begins.
pub fn items_exist()
    ensures { (limit at : ℕ) (b : List ℕ) → All (λ x. x < 256) b
        → (is : List Item) × (rest : List ℕ) × ItemsWithin limit at b is rest }
{}

/// The items of an input are one list, and so is its rest.
pub fn items_are_one()
    ensures { (limit at : ℕ) (b : List ℕ) (is js : List Item) (rest more : List ℕ)
        → ItemsWithin limit at b is rest → ItemsWithin limit at b js more
        → (is ≡ js) × (rest ≡ more) }
{}

/// The encoding of a tree with no simple value but false, true and null is an input of one item, if
/// it folds and nests no deeper than the limit. Nothing is asked of the bytes: an encoding is bytes
/// (`values::encodings_are_bytes`).
pub fn encodings_are_items()
    ensures { (limit at : ℕ) (t u : Tree) → Fits t → Assigned t → depth t ≤ limit → fold t ≡ Some u
        → ItemsWithin limit at (enc t) (item_at at (enc t) u ∷ []) [] }
{}

/// Each simple value in a value is false, true or null.
pub fn values_are_assigned(value: &Value)
    ensures { Assigned (view value.now) }
{
    match value {
        Value::Integer(_) => {}
        Value::Bytes(_) => {}
        Value::Float(_) => {}
        Value::Text(_) => {}
        Value::Bool(false) => {}
        Value::Bool(true) => {}
        Value::Null => {}
        Value::Tag(_, content) => values_are_assigned(content),
        Value::Array(items) => {
            'items: for item in items {
                values_are_assigned(item);
            }
        }
        Value::Map(entries) => {
            'entries: for entry in entries {
                values_are_assigned(&entry.0);
                values_are_assigned(&entry.1);
            }
        }
    }
}

/// A tree with no simple value but false, true and null: its encoding spells it, and if it folds it
/// means the folded tree. If it does not fold, it means nothing.
pub fn encodings_mean()
    ensures folded { (t u : Tree) → Fits t → Assigned t → fold t ≡ Some u
        → Spells (enc t) t × (meaning t ≡ Some u) }
    ensures negative { (t : Tree) → Assigned t → fold t ≡ None → meaning t ≡ None }
{}

/// Reading the encoding of such a tree and folding it agree, if it nests no deeper than the limit:
/// if it folds, the folded tree is read and the bytes after it are left. Else nothing is read, and
/// the one fault is a negative number that is too large.
pub fn reading_agrees()
    ensures folded { (limit : ℕ) (rest : List ℕ) (t u : Tree) → Fits t → Assigned t
        → depth t ≤ limit → fold t ≡ Some u → Front (enc t ++ rest) limit u rest }
    ensures unread { (limit : ℕ) (rest more : List ℕ) (t v : Tree) → Fits t → Assigned t
        → fold t ≡ None → Front (enc t ++ rest) limit v more → ⊥ }
    ensures fault { (stop limit : ℕ) (rest : List ℕ) (t : Tree) (e : Fault) → Fits t → Assigned t
        → depth t ≤ limit → Damage stop (enc t ++ rest) limit e → e ≡ semantic BigNegative }
    ensures negative { (stop limit : ℕ) (rest : List ℕ) (t : Tree) → Fits t → Assigned t
        → depth t ≤ limit → fold t ≡ None
        → Damage stop (enc t ++ rest) limit (semantic BigNegative) }
{}

/// A sink that takes each event, and keeps none.
#[derive(Drop)]
struct Watcher;

impl Sink for Watcher {
    type Error = Infallible;

    ghost Plan = { List Event };

    ghost due = { λ p es s. EachFits es → EachFits p };

    ghost torn = { λ p s. ⊥ };

    fn integer(&mut self, _number: Integer) -> Result<(), Infallible> {
        Ok(())
    }

    fn bytes(&mut self, _bytes: &[u8]) -> Result<(), Infallible> {
        Ok(())
    }

    fn float(&mut self, _float: Float) -> Result<(), Infallible> {
        Ok(())
    }

    fn text(&mut self, _text: &str) -> Result<(), Infallible> {
        Ok(())
    }

    fn boolean(&mut self, _value: bool) -> Result<(), Infallible> {
        Ok(())
    }

    fn null(&mut self) -> Result<(), Infallible> {
        Ok(())
    }

    fn tag(&mut self, _tag: u64) -> Result<(), Infallible> {
        Ok(())
    }

    fn array(&mut self, _len: usize) -> Result<(), Infallible> {
        Ok(())
    }

    fn map(&mut self, _len: usize) -> Result<(), Infallible> {
        Ok(())
    }
}

/// The item that a value is written as fits, and each simple value in it is false, true or null,
/// whatever its type.
pub fn written_fits<T: Serialize>(value: &T)
    ensures fits { Fits (T.put value.now) }
    ensures assigned { Assigned (T.put value.now) }
{
    match value.serialize(&mut Watcher) {
        Ok(()) => {}
        Err(never) => match never {},
    }
}

/// A kept value is read from the bytes that it is written as, whatever follows them, if it nests no
/// deeper than the limit. Whatever else is read from them is written alike, and leaves what
/// follows.
pub fn written_is_read<T: RoundTrip>(value: &T)
    ensures read { T.kept value.now → (limit : ℕ) → depth (T.put value.now) ≤ limit
        → ReadsAs T.refusal T.takes limit value.now (enc (T.put value.now)) }
    ensures front { T.kept value.now → (limit : ℕ) (rest : List ℕ) → depth (T.put value.now) ≤ limit
        → Front (enc (T.put value.now) ++ rest) limit (T.put value.now) rest }

    // The bytes have no fault, and the type refuses no item that is read from them.
    ensures whole { T.kept value.now → (stop limit : ℕ) (rest : List ℕ) (e : Fault)
        → depth (T.put value.now) ≤ limit
        → Damage stop (enc (T.put value.now) ++ rest) limit e → ⊥ }
    ensures item { T.kept value.now → (limit : ℕ) (b rest more : List ℕ) (t : Tree)
        → enc (T.put value.now) ++ rest ≡ b ++ more → Reads b limit t
        → (t ≡ T.put value.now) × (T.refusal t ≡ None) }
    ensures alike { T.kept value.now → (limit : ℕ) (b rest more : List ℕ) (y : T)
        → enc (T.put value.now) ++ rest ≡ b ++ more → ReadsAs T.refusal T.takes limit y b
        → (T.put y ≡ T.put value.now) × (b ≡ enc (T.put value.now)) × (more ≡ rest) }
{
    written_fits(value);
}

/// Values that are read at the front of one list of bytes are written alike, whatever the limits,
/// and were read from the same bytes. A value that is read from an encoding is written as one that
/// is taken from the folded tree.
pub fn readings_agree<T: RoundTrip>()
    ensures read { (n m : ℕ) (b : List ℕ) (x y : T) → ReadsAs T.refusal T.takes n x b
        → ReadsAs T.refusal T.takes m y b → T.put x ≡ T.put y }
    ensures front { (n m : ℕ) (b c u v : List ℕ) (x y : T) → b ++ u ≡ c ++ v
        → ReadsAs T.refusal T.takes n x b → ReadsAs T.refusal T.takes m y c
        → (T.put x ≡ T.put y) × (b ≡ c) × (u ≡ v) }
    ensures taken { (limit : ℕ) (t u : Tree) (x y : T) → Fits t → Assigned t → fold t ≡ Some u
        → T.takes u x → ReadsAs T.refusal T.takes limit y (enc t) → T.put x ≡ T.put y }
{}

/// What a type takes from a folded value is what is read from the value's encoding, if it nests no
/// deeper than the limit.
pub fn reading_takes<T: Deserialize>(value: &Value)
    ensures taken { (limit : ℕ) (u : Tree) (x : T) → depth (view value.now) ≤ limit
        → fold (view value.now) ≡ Some u → T.refusal u ≡ None → T.takes u x
        → ReadsAs T.refusal T.takes limit x (enc (view value.now)) }
    ensures read { (limit : ℕ) (x : T) → ReadsAs T.refusal T.takes limit x (enc (view value.now))
        → (u : Tree) × (fold (view value.now) ≡ Some u) × (T.refusal u ≡ None) × T.takes u x }

    // The item that is read from the encoding is the folded value, also if the type refuses it.
    ensures item { (limit : ℕ) (t : Tree) → Reads (enc (view value.now)) limit t
        → fold (view value.now) ≡ Some t }
{
    values::value_fits(value);
    values_are_assigned(value);
}
