//! What is written and read back.
ghost use Rattle.std.specs.Prelude.{◌≡◌, ◌<◌, ◌^◌, pos, false, FitsSigned, All, MatchOption, Some};
ghost use Rattle.std.specs.Prelude.{refl, ⊤, string_bytes};
ghost use Rattle.std.proofs.Common.{sym, ◌∙◌};
ghost use Rattle.std.specs.BTreeMap.{IsOrdered};
ghost use Rattle.std.specs.Char.{IsScalar};
ghost use Rattle.std.specs.Int.{w8, w16, w32, w64, w128};
ghost use Rattle.std.specs.declared.cmp.Ordering.TheVariants.{Equal};
ghost use Rattle.ciborium_value.specs.Folding.{fold};
ghost use Rattle.ciborium_value.specs.Kinds.{is_null};
ghost use Rattle.ciborium_value.specs.View.{view};
ghost use Rattle.ciborium_traits.specs.Back.{IsTakenBack, TakesOne};
ghost use Rattle.ciborium_traits.specs.Reading.{bare};
ghost use Rattle.ciborium_traits.specs.Facts.Keys.{tied_canonical, tied_character, tied_value};
ghost use Rattle.ciborium_traits.specs.Facts.Lists.{option_kept, list_kept};
ghost use Rattle.ciborium_traits.specs.Facts.Maps.{map_kept, map_once};
ghost use Rattle.ciborium_traits.specs.Facts.Numbers.{unsigned_back, signed_back, wide_once};
ghost use Rattle.ciborium_traits.specs.Facts.Numbers.{tied_unsigned, tied_signed};
ghost use Rattle.ciborium_traits.specs.Facts.Numbers.{unsigned_kept, signed_kept_8, signed_kept_16};
ghost use Rattle.ciborium_traits.specs.Facts.Numbers.{signed_kept_32, signed_kept_64};
ghost use Rattle.ciborium_traits.specs.Facts.Once.{option_once, list_once};
ghost use Rattle.ciborium_traits.specs.Facts.Texts.{bool_kept, character_kept, tied_bool};
ghost use Rattle.ciborium_traits.specs.Facts.Texts.{tied_text};
ghost use Rattle.ciborium_traits.specs.Facts.Tuples.{one_back, two_back, three_back, four_back};
ghost use Rattle.ciborium_traits.specs.Facts.Tuples.{one_once, two_once, three_once, four_once};

use crate::de::Deserialize;
use crate::ser::Serialize;
use ciborium_value::{CanonicalValue, Value};
use std::collections::BTreeMap;

/// A type whose values are written and read as the same thing.
pub trait RoundTrip: Serialize + Deserialize {
    /// The value is read back: a number is in its type's range, a part is no null if null would
    /// mean that there is none, and so on.
    ghost kept: { Self → Type 0 };

    /// The item that a kept value is written as is folded and one of the type, and the value is
    /// taken from it.
    ghost taken_back: { (x : Self) → kept x → IsTakenBack Self.Serialize Self.Deserialize x };

    /// Values that are taken from one item are written as one item.
    ghost takes_one: { TakesOne Self.put Self.takes };
}

/// A type whose order sees no more of a value than what it is written as, so that maps with such
/// keys are read as one.
pub trait MapKey: RoundTrip + Ord {
    /// Keys that are written alike are equal.
    ghost written_alike: { (x y : Self) → Self.put x ≡ Self.put y → Self.cmp x y ≡ Equal };
}

impl RoundTrip for bool {
    ghost kept = { λ x. ⊤ };

    ghost taken_back = { bool_kept };

    ghost takes_one = { λ t x y a b. sym a ∙ b };
}

impl RoundTrip for () {
    ghost kept = { λ x. ⊤ };

    ghost taken_back = { λ x h. (refl, refl, refl) };

    ghost takes_one = { λ t x y a b. refl };
}

impl RoundTrip for u8 {
    ghost kept = { λ n. n < 2 ^ 8 };

    ghost taken_back = { λ n h. unsigned_kept 8 n h };

    ghost takes_one = { λ t x y a b. sym a ∙ b };
}

impl RoundTrip for u16 {
    ghost kept = { λ n. n < 2 ^ 16 };

    ghost taken_back = { λ n h. unsigned_kept 16 n h };

    ghost takes_one = { λ t x y a b. sym a ∙ b };
}

impl RoundTrip for u32 {
    ghost kept = { λ n. n < 2 ^ 32 };

    ghost taken_back = { λ n h. unsigned_kept 32 n h };

    ghost takes_one = { λ t x y a b. sym a ∙ b };
}

impl RoundTrip for u64 {
    ghost kept = { λ n. n < 2 ^ 64 };

    ghost taken_back = { λ n h. unsigned_kept 64 n h };

    ghost takes_one = { λ t x y a b. sym a ∙ b };
}

impl RoundTrip for usize {
    ghost kept = { λ n. n < 2 ^ 64 };

    ghost taken_back = { λ n h. unsigned_kept 64 n h };

    ghost takes_one = { λ t x y a b. sym a ∙ b };
}

impl RoundTrip for i8 {
    ghost kept = { FitsSigned w8 };

    ghost taken_back = { λ n h. signed_kept_8 n h };

    ghost takes_one = { λ t x y a b. sym a ∙ b };
}

impl RoundTrip for i16 {
    ghost kept = { FitsSigned w16 };

    ghost taken_back = { λ n h. signed_kept_16 n h };

    ghost takes_one = { λ t x y a b. sym a ∙ b };
}

impl RoundTrip for i32 {
    ghost kept = { FitsSigned w32 };

    ghost taken_back = { λ n h. signed_kept_32 n h };

    ghost takes_one = { λ t x y a b. sym a ∙ b };
}

impl RoundTrip for i64 {
    ghost kept = { FitsSigned w64 };

    ghost taken_back = { λ n h. signed_kept_64 n h };

    ghost takes_one = { λ t x y a b. sym a ∙ b };
}

impl RoundTrip for isize {
    ghost kept = { FitsSigned w64 };

    ghost taken_back = { λ n h. signed_kept_64 n h };

    ghost takes_one = { λ t x y a b. sym a ∙ b };
}

impl RoundTrip for u128 {
    ghost kept = { λ n. n < 2 ^ 128 };

    ghost taken_back = { unsigned_back };

    ghost takes_one = { λ t x y a b. wide_once t (pos x) (pos y) a b };
}

impl RoundTrip for i128 {
    ghost kept = { FitsSigned w128 };

    ghost taken_back = { signed_back };

    ghost takes_one = { wide_once };
}

impl RoundTrip for char {
    ghost kept = { IsScalar };

    ghost taken_back = { character_kept };

    ghost takes_one = { λ t x y a b. sym a ∙ b };
}

impl RoundTrip for String {
    ghost kept = { λ s. ⊤ };

    ghost taken_back = { λ x h. (refl, refl, refl) };

    ghost takes_one = { λ t x y a b. sym a ∙ b };
}

impl RoundTrip for Value {
    ghost kept = { λ v. fold (view v) ≡ Some (view v) };

    ghost taken_back = { λ v h. (h, refl, refl) };

    ghost takes_one = { λ t x y a b. a ∙ sym b };
}

impl RoundTrip for CanonicalValue {
    ghost kept = { λ c. fold (view c.0) ≡ Some (view c.0) };

    ghost taken_back = { λ c h. (h, refl, refl) };

    ghost takes_one = { λ t x y a b. a ∙ sym b };
}

impl<T: RoundTrip> RoundTrip for Option<T> {
    ghost kept = { λ o. MatchOption o ⊤ (λ x. T.kept x × (is_null (T.put x) ≡ false)) };

    ghost taken_back = { option_kept T.put T.refusal T.takes T.kept T.taken_back };

    ghost takes_one = { option_once T.put T.takes T.takes_one };
}

impl<T: RoundTrip> RoundTrip for Vec<T> {
    ghost kept = { λ v. All T.kept v.items };

    ghost taken_back = { λ v. list_kept T.put T.refusal T.takes T.kept T.taken_back v.items };

    ghost takes_one = { λ t x y. list_once T.put T.takes T.takes_one (bare t) x.items y.items };
}

impl<A: RoundTrip> RoundTrip for (A,) {
    ghost kept = { λ p. A.kept p.0 };

    ghost taken_back = { λ p h. one_back A.put A.refusal A.takes p.0 (A.taken_back p.0 h) };

    ghost takes_one = { λ t x y. one_once A.put A.takes A.takes_one (bare t) x.0 y.0 };
}

impl<A: RoundTrip, B: RoundTrip> RoundTrip for (A, B) {
    ghost kept = { λ p. A.kept p.0 × B.kept p.1 };

    ghost taken_back = { λ p h. two_back A.put A.refusal A.takes B.put B.refusal B.takes p.0 p.1
        (A.taken_back p.0 h.0) (B.taken_back p.1 h.1) };

    ghost takes_one = { λ t x y. two_once A.put A.takes A.takes_one B.put B.takes B.takes_one
        (bare t) x.0 y.0 x.1 y.1 };
}

impl<A: RoundTrip, B: RoundTrip, C: RoundTrip> RoundTrip for (A, B, C) {
    ghost kept = { λ p. A.kept p.0 × B.kept p.1 × C.kept p.2 };

    ghost taken_back = { λ p h. three_back A.put A.refusal A.takes B.put B.refusal B.takes C.put
        C.refusal C.takes p.0 p.1 p.2
        (A.taken_back p.0 h.0) (B.taken_back p.1 h.1) (C.taken_back p.2 h.2) };

    ghost takes_one = { λ t x y. three_once A.put A.takes A.takes_one B.put B.takes B.takes_one
        C.put C.takes C.takes_one
        (bare t) x.0 y.0 x.1 y.1 x.2 y.2 };
}

impl<A: RoundTrip, B: RoundTrip, C: RoundTrip, D: RoundTrip> RoundTrip for (A, B, C, D) {
    ghost kept = { λ p. A.kept p.0 × B.kept p.1 × C.kept p.2 × D.kept p.3 };

    ghost taken_back = { λ p h. four_back A.put A.refusal A.takes B.put B.refusal B.takes C.put
        C.refusal C.takes D.put D.refusal D.takes
        p.0 p.1 p.2 p.3 (A.taken_back p.0 h.0) (B.taken_back p.1 h.1) (C.taken_back p.2 h.2)
        (D.taken_back p.3 h.3) };

    ghost takes_one = { λ t x y. four_once A.put A.takes A.takes_one B.put B.takes B.takes_one C.put
        C.takes C.takes_one D.put D.takes
        D.takes_one (bare t) x.0 y.0 x.1 y.1 x.2 y.2 x.3 y.3 };
}

impl<K: MapKey, V: RoundTrip> RoundTrip for BTreeMap<K, V> {
    ghost kept = { λ m. IsOrdered K.cmp m × All (λ e. K.kept e.0 × V.kept e.1) m.entries };

    ghost taken_back = { λ m h. map_kept K.cmp K.total K.put K.refusal K.takes V.put V.refusal
        V.takes
        K.kept V.kept K.taken_back V.taken_back m.entries h.0 h.1 };

    ghost takes_one = { λ t m n. map_once K.cmp K.total K.put V.put K.written_alike
        K.takes V.takes K.takes_one V.takes_one (bare t) m.entries n.entries };
}

impl MapKey for bool {
    ghost written_alike = { tied_bool };
}

impl MapKey for u8 {
    ghost written_alike = { tied_unsigned };
}

impl MapKey for u16 {
    ghost written_alike = { tied_unsigned };
}

impl MapKey for u32 {
    ghost written_alike = { tied_unsigned };
}

impl MapKey for u64 {
    ghost written_alike = { tied_unsigned };
}

impl MapKey for usize {
    ghost written_alike = { tied_unsigned };
}

impl MapKey for i8 {
    ghost written_alike = { tied_signed };
}

impl MapKey for i16 {
    ghost written_alike = { tied_signed };
}

impl MapKey for i32 {
    ghost written_alike = { tied_signed };
}

impl MapKey for i64 {
    ghost written_alike = { tied_signed };
}

impl MapKey for isize {
    ghost written_alike = { tied_signed };
}

impl MapKey for String {
    ghost written_alike = { λ x y. tied_text (string_bytes x) (string_bytes y) };
}

impl MapKey for char {
    ghost written_alike = { tied_character };
}

impl MapKey for Value {
    ghost written_alike = { tied_value };
}

impl MapKey for CanonicalValue {
    ghost written_alike = { tied_canonical };
}
