//! What a table tells of each type and function, types by their shapes, and long chains of types. Which programs are refused
//! is in the page of the program `examples`.

ghost use Rattle.std.specs.Prelude.{◌<◌, length};

use sierra_text::read;
use sierra_types::Name;
use std::alloc::{AllocError, Global};
use std::test::Fail;
use type_table::*;
use type_trees::Num;

/// A type of each kind, and two functions.
const EACH_KIND: &str =
    "type felt64 = felt64; type u8 = u8; type R = RangeCheck; type G = GasBuiltin; type N = NonZero<u8>;
type B = Box<u8>; type A = Array<u8>; type S = Snapshot<A>; type T = Struct<ut@T, u8, A>;
type Unit = Struct<ut@Unit>; type E = Enum<ut@E, A, u8>; type D = Felt64Dict<u8>;
type Entry = Felt64DictEntry<u8>; type Q = SquashedFelt64Dict<u8>; type U = Uninitialized<D>;
type Held = Struct<ut@Held, D, u8>; type Access = Struct<ut@Tuple, felt64, u8, u8>; type Arrays = Array<A>;
type C = Box<A>;
f@0([0]: R, [1]: u8) -> (R, A); g@0() -> ();";

/// The table of a type of each kind.
fn kinds(alloc: Global) -> Result<Types, Fail> {
    Ok(table(alloc, &read(alloc, EACH_KIND.as_bytes())?)?)
}

/// The positions of types, each behind a blank.
fn positions(alloc: Global, types: &[TypeId]) -> Result<String, AllocError> {
    let mut text = String::new(alloc);
    for t in types {
        let position = t.0;
        text.push_str(&format!(in alloc; " {position}")?)?;
    }
    Ok(text)
}

/// A letter for each of storable, drop, dup, zero_sized, holds_dict and plain.
fn letters(alloc: Global, info: TypeInfo, plain: bool) -> Result<String, AllocError> {
    let flags = [
        (info.storable, "s"),
        (info.drop, "d"),
        (info.dup, "u"),
        (info.zero_sized, "z"),
        (info.holds_dict, "h"),
        (plain, "p"),
    ];
    let mut text = String::new(alloc);
    for (holds, letter) in flags {
        if holds {
            text.push_str(letter)?;
        }
    }
    Ok(text)
}

/// The text of a name.
fn shown(name: &Name) -> &str {
    std::str::from_utf8(name.bytes()).unwrap_or("?")
}

/// What is told of a type: its position, its generic name, its user's name, its type arguments, its size and its letters.
fn told(alloc: Global, types: &Types, t: TypeId) -> Result<String, AllocError>
    requires { t.0 < length types.now.rows }
{
    let info = types.info(t);
    let generic = shown(types.generic(t));
    let user = types.user(t).map_or("", shown);
    let members = positions(alloc, types.members(t))?;
    let size = info.size;
    let letters = letters(alloc, info, types.is_plain(t))?;
    let position = t.0;
    format!(in alloc; "{position} {generic} {user}{members}: {size} {letters}")
}

/// What is told of the type with this id, if one is declared.
fn told_of(alloc: Global, types: &Types, id: &str) -> Result<String, AllocError> {
    match types.number(&Name::new(alloc, id.as_bytes())?) {
        Some(t) if t.0 < types.len() => told(alloc, types, t),
        _ => Ok(String::new(alloc)),
    }
}

/// What is told of each type, and of one that isn't declared.
const TOLD: &str = "felt64 = 0 felt64 : 1 sdup
u8 = 1 u8 : 1 sdup
R = 2 RangeCheck : 1 s
G = 3 GasBuiltin : 1 s
N = 4 NonZero  1: 1 sdu
B = 5 Box  1: 1 sdu
A = 6 Array  1: 2 sdp
S = 7 Snapshot  6: 2 sdu
T = 8 Struct T 1 6: 3 sdp
Unit = 9 Struct Unit: 0 sduzp
E = 10 Enum E 6 1: 3 sdp
D = 11 Felt64Dict  1: 2 sh
Entry = 12 Felt64DictEntry  1: 2 sh
Q = 13 SquashedFelt64Dict  1: 2 sd
U = 14 Uninitialized  11: 2 dh
Held = 15 Struct Held 11 1: 3 sh
Access = 16 Struct Tuple 0 1 1: 3 sdup
Arrays = 17 Array  6: 2 sd
C = 18 Box  6: 1 sd
X =";

#[test]
fn told_of_types(rt: HostRuntime) -> Result<(), Fail> {
    let types = kinds(rt.alloc())?;
    for line in TOLD.lines() {
        let (id, expected) = line.split_once('=').ok_or("no `=`")?;
        let text = told_of(rt.alloc(), &types, id.trim())?;
        assert_eq!(rt; text.as_str(), expected.trim(), "{line}");
    }
    assert!(rt; types.len() == 19);
    assert_eq!(rt; types.kind(TypeId(13)), TypeKind::SquashedDict(Num::U8));
    Ok(())
}

/// What is told of the function with this id, if one is declared: its position, its parameters and its results.
fn told_of_function(alloc: Global, types: &Types, id: &str) -> Result<String, AllocError> {
    match types.function(&Name::new(alloc, id.as_bytes())?) {
        Some(f) if f < types.function_count() => {
            let params = positions(alloc, types.params(f))?;
            let results = positions(alloc, types.results(f))?;
            format!(in alloc; "{f}:{params} ->{results}")
        }
        _ => Ok(String::new(alloc)),
    }
}

#[test]
fn told_of_functions(rt: HostRuntime) -> Result<(), Fail> {
    let types = kinds(rt.alloc())?;
    for line in "f = 0: 2 1 -> 2 6\ng = 1: ->\nu8 =".lines() {
        let (id, expected) = line.split_once('=').ok_or("no `=`")?;
        let text = told_of_function(rt.alloc(), &types, id.trim())?;
        assert_eq!(rt; text.as_str(), expected.trim(), "{line}");
    }
    Ok(())
}

/// The type of numbers of this name.
fn num(word: &str) -> Num {
    match word {
        "u8" => Num::U8,
        "u16" => Num::U16,
        "u32" => Num::U32,
        _ => Num::Felt64,
    }
}

/// A shape by its name and its part: the name of a number, or a type's position.
fn shape(text: &str) -> Option<Shape> {
    let (name, part) = text.split_once(' ').unwrap_or((text, ""));
    let t = TypeId(part.parse::<usize>().unwrap_or(0));
    match name {
        "Number" => Some(Shape::Number(num(part))),
        "NonZero" => Some(Shape::NonZero(num(part))),
        "RangeCheck" => Some(Shape::RangeCheck),
        "GasBuiltin" => Some(Shape::GasBuiltin),
        "Box" => Some(Shape::Box(t)),
        "Array" => Some(Shape::Array(t)),
        "Snapshot" => Some(Shape::Snapshot(t)),
        "Uninitialized" => Some(Shape::Uninitialized(t)),
        "Dict" => Some(Shape::Dict(num(part))),
        "DictEntry" => Some(Shape::DictEntry(num(part))),
        "SquashedDict" => Some(Shape::SquashedDict(num(part))),
        "Access" => Some(Shape::Access(num(part))),
        _ => None,
    }
}

/// Shapes, each with the position of the type that has it.
const SHAPES: &str = "Number felt64 = 0
Number u8 = 1
Number u16 =
RangeCheck = 2
GasBuiltin = 3
NonZero u8 = 4
NonZero felt64 =
Box 1 = 5
Box 0 =
Box 6 = 18
Array 1 = 6
Array 6 = 17
Array 99 =
Snapshot 6 = 7
Snapshot 1 =
Dict u8 = 11
Dict u32 =
DictEntry u8 = 12
SquashedDict u8 = 13
SquashedDict u32 =
Uninitialized 11 = 14
Uninitialized 1 =
Access u8 = 16
Access felt64 =";

#[test]
fn found_by_shape(rt: HostRuntime) -> Result<(), Fail> {
    let types = kinds(rt.alloc())?;
    for line in SHAPES.lines() {
        let (text, expected) = line.split_once('=').ok_or("no `=`")?;
        let shape = shape(text.trim()).ok_or("no shape")?;
        let place = expected.trim().parse::<usize>().ok().map(TypeId);
        assert_eq!(rt; types.find(shape), place, "{line}");
    }
    Ok(())
}

#[test]
fn positions_of_libfuncs(rt: HostRuntime) -> Result<(), Fail> {
    let text = b"libfunc l = jump; libfunc m = jump; libfunc l = jump; libfunc n = jump;";
    let program = read(rt.alloc(), text)?;
    let positions = libfunc_positions(rt.alloc(), program.libfuncs.items())?;
    assert_eq!(rt; positions.find(b"l"), Some(0));
    assert_eq!(rt; positions.find(b"n"), Some(3));
    assert_eq!(rt; positions.find(b"x"), None);
    Ok(())
}

/// Boxes `t1` to `t65535`, each of the type with the number before it, and behind them a declaration.
fn boxes(alloc: Global, last: &str) -> Result<String, AllocError> {
    let mut text = String::new(alloc);
    for i in 0..65_535_u64 {
        let next = i.wrapping_add(1);
        let declaration = format!(in alloc; "type t{next} = Box<t{i}>;")?;
        text.push_str(&declaration)?;
    }
    text.push_str(last)?;
    Ok(text)
}

/// The type that is too deep or reaches itself.
fn named(fault: &TypeFault) -> Option<&Name> {
    match fault {
        TypeFault::SizeAbove(name) => Some(name),
        TypeFault::TypeCycle(name) => Some(name),
        _ => None,
    }
}

#[test]
fn chains(rt: HostRuntime) -> Result<(), Fail> {
    let alloc = rt.alloc();
    for (last, expected) in [("type t0 = u8;", "t256"), ("type t0 = Box<t65535>;", "t1")] {
        let text = boxes(alloc, last)?;
        let program = read(alloc, text.as_bytes())?;
        let fault = table(alloc, &program).err().ok_or("no refusal")?;
        let name = named(&fault).ok_or("another refusal")?;
        assert_eq!(rt; shown(name), expected, "{last}");
    }
    Ok(())
}
