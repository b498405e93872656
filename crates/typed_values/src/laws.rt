//! Laws on inputs and their texts.

ghost use Rattle.std.specs.Prelude.{◌≡◌, ◌⊎◌, ◌↔◌, ℕ, List, Ok, Err, true};
ghost use Rattle.std.specs.List.{AllByRecursion};
ghost use Rattle.sierra_types.specs.declared.program.TypeDecl.{TypeDecl};
ghost use Rattle.text_reading.specs.declared.place.Place.{Place};
ghost use Rattle.type_table.specs.IsType.{IsType};
ghost use Rattle.type_trees.specs.Ty.{Ty, is_plain};
ghost use Rattle.value_trees.specs.Of.{IsPlain};
ghost use Rattle.value_trees.specs.Val.{Plain};
ghost use Rattle.typed_values.specs.Faults.{CanBeGiven, HasFlatArrays, HasNumberOutOfRange, IsInputFault};
ghost use Rattle.typed_values.specs.Inputs.{InputView, FitsMain, input_text};
ghost use Rattle.typed_values.specs.Reading.{input_at};
ghost use Rattle.typed_values.specs.Texts.{value_text};
ghost use Rattle.typed_values.specs.declared.fault.InputFault.{InputFault};
ghost use Rattle.typed_values.specs.declared.fault.InputFault.TheVariants as faults;

/// A text is read as an input if and only if the input fits main, whose parameters that are no builtins are of these types, and the
/// text is the input's.
pub fn texts_of_inputs()
    ensures { (tys : List Ty) (text : List ℕ) (i : InputView) → (input_at tys text ≡ Ok i) ↔ (FitsMain tys i × (text ≡ input_text i)) }
{}

/// Two values of one plain type with one text are equal, and so are two inputs that fit main.
pub fn one_text()
    ensures of_value { (ty : Ty) (v w : Plain) → is_plain ty ≡ true → IsPlain ty v → IsPlain ty w → value_text v ≡ value_text w → v ≡ w }
    ensures of_input { (tys : List Ty) (i j : InputView) → FitsMain tys i → FitsMain tys j → input_text i ≡ input_text j → i ≡ j }
{}

/// A text that is refused has the fault that is told, where values of the types can be given. Of a limit it is said where the elements of
/// arrays hold no array; of a number out of range that it is one also where they do.
pub fn refused_inputs()
    ensures syntax { (tys : List Ty) (text : List ℕ) (place : Place) → AllByRecursion CanBeGiven tys → input_at tys text ≡ Err (faults.Syntax place) → IsInputFault tys text (faults.Syntax place) }
    ensures count { (tys : List Ty) (text : List ℕ) (expected found : ℕ) → AllByRecursion CanBeGiven tys → input_at tys text ≡ Err (faults.LineCount expected found) → IsInputFault tys text (faults.LineCount expected found) }
    ensures gas { (tys : List Ty) (text : List ℕ) → AllByRecursion CanBeGiven tys → input_at tys text ≡ Err faults.GasRange → IsInputFault tys text faults.GasRange }
    ensures number { (tys : List Ty) (text : List ℕ) (place : Place) → AllByRecursion CanBeGiven tys → input_at tys text ≡ Err (faults.OutOfRange place) → HasNumberOutOfRange tys text place }
    ensures range { (tys : List Ty) (text : List ℕ) (place : Place) → AllByRecursion CanBeGiven tys → AllByRecursion HasFlatArrays tys → input_at tys text ≡ Err (faults.OutOfRange place) → IsInputFault tys text (faults.OutOfRange place) }
    ensures long { (tys : List Ty) (text : List ℕ) (place : Place) → AllByRecursion CanBeGiven tys → AllByRecursion HasFlatArrays tys → input_at tys text ≡ Err (faults.LongArray place) → IsInputFault tys text (faults.LongArray place) }
{}

/// A fault is told if and only if it is the text's, where values of the types can be given and the elements of arrays hold no array. Where
/// they do, a fault that is no array's is told if no array is told to be too long.
pub fn told_faults()
    ensures whole { (tys : List Ty) (text : List ℕ) (fault : InputFault) → AllByRecursion CanBeGiven tys → AllByRecursion HasFlatArrays tys → (input_at tys text ≡ Err fault) ↔ IsInputFault tys text fault }
    ensures or_array { (tys : List Ty) (text : List ℕ) (fault : InputFault) → AllByRecursion CanBeGiven tys → IsInputFault tys text fault → ((there : Place) → fault ≡ faults.LongArray there → ⊥) → (input_at tys text ≡ Err fault) ⊎ ((there : Place) × (input_at tys text ≡ Err (faults.LongArray there))) }
{}

/// Values of the plain types of a program can be given, and the elements of their arrays hold no array, so of an entry's types all that is
/// said of faults holds.
pub fn given_types()
    ensures { (ds : List TypeDecl) (ty : Ty) (id : List ℕ) → IsType ds ty id → is_plain ty ≡ true → CanBeGiven ty × HasFlatArrays ty }
{}

/// A text has one fault at most, and none where it is an input's. Where a number is out of range, the fault is that or an array that is
/// too long.
pub fn one_fault()
    ensures one { (tys : List Ty) (text : List ℕ) (a b : InputFault) → IsInputFault tys text a → IsInputFault tys text b → a ≡ b }
    ensures not_both { (tys : List Ty) (text : List ℕ) (fault : InputFault) (i : InputView) → IsInputFault tys text fault → FitsMain tys i → text ≡ input_text i → ⊥ }
    ensures of_number { (tys : List Ty) (text : List ℕ) (place : Place) (fault : InputFault) → HasNumberOutOfRange tys text place → IsInputFault tys text fault → (fault ≡ faults.OutOfRange place) ⊎ ((there : Place) × (fault ≡ faults.LongArray there)) }
{}
