//! Main, and its types.

ghost use Rattle.std.specs.Prelude.{◌≡◌, ◌<◌, length, Some};
ghost use Rattle.std.specs.List.{All, position};
ghost use Rattle.type_table.specs.View.{trees_of, tree_of};
ghost use Rattle.type_table.specs.Table.{HasTypes};
ghost use Rattle.entry_check.specs.Entry.{is_main_name, is_entry_type, first_other, entry_at, entry_of};

use crate::fault::EntryFault;
use sierra_types::{Function, Program};
use type_table::{TypeId, TypeKind, Types};

/// The position of main, the first function named `main` or by a name that ends in `::main`, where its types are those of an
/// entry; `types` are the program's. It takes no memory.
pub fn check_entry(program: &Program, types: &Types) -> Result<usize, EntryFault>
    requires { HasTypes program.now types.now }
    ensures { result ≡ entry_of program.now types.now }
{
    match find_main(program.functions.items()) {
        Some(main) => check_types(types, main),
        None => Err(EntryFault::NoMain),
    }
}

/// The same function, where its types are those of an entry.
fn check_types(types: &Types, main: usize) -> Result<usize, EntryFault>
    requires { main < length types.now.functions }
    ensures { result ≡ entry_at types.now (Some main) }
{
    let _count = types.len();
    let params = types.params(main);
    if let Some(k) = first_other(types, params) {
        return Err(EntryFault::EntryType(k as u64));
    }
    match first_other(types, types.results(main)) {
        Some(k) => Err(EntryFault::EntryType(params.len() as u64 + k as u64)),
        None => Ok(main),
    }
}

/// The first of these functions that is named as main.
fn find_main(functions: &[Function]) -> Option<usize>
    ensures { result ≡ position (λ f. is_main_name f.id) functions.now }
{
    functions.iter().position(|f| is_main_name(f.id.bytes()))
}

/// Whether it is a name of main.
fn is_main_name(name: &[u8]) -> bool
    ensures { result ≡ is_main_name name.now }
{
    name == b"main".as_slice() || name.ends_with(b"::main")
}

/// The first of these types that is neither plain nor a builtin.
fn first_other(types: &Types, list: &[TypeId]) -> Option<usize>
    requires { All (λ t. t.0 < length types.now.rows) list.now }
    ensures { result ≡ first_other (trees_of types.now list.now) }
{
    for (i, t) in list.iter().enumerate() {
        if !is_entry_type(types, *t) {
            return Some(i);
        }
    }
    None
}

/// Whether values of the type may go into a run and come out, or it is a builtin.
fn is_entry_type(types: &Types, t: TypeId) -> bool
    requires { t.0 < length types.now.rows }
    ensures { result ≡ is_entry_type (tree_of types.now t.0) }
{
    match types.kind(t) {
        TypeKind::RangeCheck | TypeKind::GasBuiltin => true,
        _ => types.is_plain(t),
    }
}
