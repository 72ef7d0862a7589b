//! Laws of the definitions, each the contract of a function that does nothing.

ghost use Rattle.std.specs.Prelude.{◌≡◌, ◌⊎◌, List, ℕ};
ghost use Rattle.stomp_escape.specs.declared.fault.EscapeFault.{EscapeFault};
ghost use Rattle.stomp_escape.specs.Escape.{escaped, Spells, IsFirstFault, IsSpelled, IsFaulty};

/// Law: the escaped text of a value spells that value and no other, so `unescape` of what `escape`
/// gave is the value again.
pub fn unescape_undoes_escape()
    ensures spelled { (v : List ℕ) → Spells (escaped v) v }
    ensures alone { (v w : List ℕ) → Spells (escaped v) w → w ≡ v }
{}

/// Law: a text spells at most one value.
pub fn one_value()
    ensures { (text v w : List ℕ) → Spells text v → Spells text w → v ≡ w }
{}

/// Law: each text either spells a value or has a first fault, never both, and then only one.
pub fn spelled_or_faulty()
    ensures either { (text : List ℕ) → IsSpelled text ⊎ IsFaulty text }
    ensures never_both { (text : List ℕ) → IsSpelled text → ¬ IsFaulty text }
    ensures one_fault { (t : List ℕ) (e f : EscapeFault) → IsFirstFault t e → IsFirstFault t f → e ≡ f }
{}
