//! Values that are shown of cells.

ghost use Rattle.std.specs.Prelude.{◌≡◌, ◌<◌, false, length, IfSome, IsTrue};
ghost use Rattle.type_table.specs.View.{tree_of};
ghost use Rattle.type_trees.specs.Ty.{is_plain, holds_array};

use cell_forms::{ShowFault, show};
use felt64::Felt;
use ro_machine::Memory;
use sierra_text::read;
use sierra_types::Name;
use std::alloc::{AllocError, Global};
use std::test::Fail;
use type_table::{TypeId, TypeKind, Types, table};
use typed_values::print_value;

/// The types, and an array of each, by whose name a row gives its type: that main may take the array says that its
/// elements are plain and that no array is in them.
const TYPES: &str = "type felt64 = felt64; type u8 = u8; type u16 = u16; type u32 = u32;
type Unit = Struct<ut@Tuple>; type Pair = Struct<ut@Pair, u8, felt64>; type Tree = Struct<ut@Tree, Pair, Unit, u32, Pair>;
type Either = Enum<ut@Either, u8, Tree, Unit>; type Deep = Struct<ut@Deep, Either, u16>;
type Felts = Array<felt64>; type U8s = Array<u8>; type U16s = Array<u16>; type U32s = Array<u32>;
type Pairs = Array<Pair>; type Trees = Array<Tree>; type Eithers = Array<Either>;
type Deeps = Array<Deep>;";

/// The array of a type, the words of the cells, and what is shown of them, or `-` where no value stands there.
const ROWS: &str = "Felts | 0 = 0
Felts | 18446744069414584320 = 18446744069414584320
U8s | 255 = 255
U8s | 256 = -
U16s | 65535 = 65535
U16s | 65536 = -
U32s | 4294967295 = 4294967295
U32s | 4294967296 = -
Pairs | 7 300 = (7, 300)
Pairs | 300 7 = -
Trees | 1 2 3 4 5 = ((1, 2), (), 3, (4, 5))
Trees | 1 2 3 256 5 = -
Eithers | 0 0 0 0 0 9 = 0:9
Eithers | 0 8 7 6 5 9 = 0:9
Eithers | 0 9 0 0 0 256 = -
Eithers | 1 1 2 3 4 5 = 1:((1, 2), (), 3, (4, 5))
Eithers | 2 1 2 3 4 5 = 2:()
Eithers | 3 0 0 0 0 0 = -
Eithers | 18446744069414584320 0 0 0 0 0 = -
Deeps | 0 8 7 6 5 9 65535 = (0:9, 65535)
Deeps | 0 8 7 6 5 9 65536 = -";

/// The type of the elements of an array that main may take.
fn element_type(t: &Types, array: TypeId) -> Option<TypeId>
    requires { array.0 < length t.now.rows }
    ensures { IfSome result (λ e. (e.0 < length t.now.rows) × IsTrue (is_plain (tree_of t.now e.0)) × (holds_array (tree_of t.now e.0) ≡ false)) }
{
    if t.is_plain(array) && t.kind(array) == TypeKind::Array {
        t.members(array).first().copied()
    } else {
        None
    }
}

/// The words of a text.
fn cells(alloc: Global, text: &str) -> Result<Vec<Felt>, Fail> {
    let mut cells = Vec::new(alloc);
    for word in text.split_whitespace() {
        let n: u64 = word.parse()?;
        cells.push(Felt::reduce(n as u128))?;
    }
    Ok(cells)
}

/// What is shown of the words as a value of the type of the array's elements.
fn told(alloc: Global, t: &Types, array: &str, words: &str) -> Result<String, Fail> {
    let array = t
        .number(&Name::new(alloc, array.as_bytes())?)
        .ok_or("no such type")?;
    if array.0 >= t.len() {
        return Ok(String::new(alloc));
    }
    let ty = element_type(t, array).ok_or("not a plain array")?;
    let cells = cells(alloc, words)?;
    if cells.len() != t.info(ty).size as usize {
        return Ok(String::from_str(alloc, "so many cells")?);
    }
    match show(alloc, &Memory::new(alloc), &cells, t, ty) {
        Ok(value) => Ok(print_value(alloc, &value)?),
        Err(ShowFault::NoValue) => Ok(String::from_str(alloc, "-")?),
        Err(ShowFault::Memory) => Err(AllocError)?,
    }
}

#[test]
fn values_in_cells(rt: HostRuntime) -> Result<(), Fail> {
    let alloc = rt.alloc();
    let t = table(alloc, &read(alloc, TYPES.as_bytes())?)?;
    for row in ROWS.lines() {
        let (row, expected) = row.split_once('=').ok_or("no `=`")?;
        let (array, words) = row.split_once('|').ok_or("no `|`")?;
        let told = told(alloc, &t, array.trim(), words)?;
        assert_eq!(rt; told.as_str(), expected.trim(), "{row}");
    }
    Ok(())
}
