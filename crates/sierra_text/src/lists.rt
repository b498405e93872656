//! Lists of items with `,` between them.

ghost use Rattle.std.specs.Prelude.{◌≡◌, [], ◌∷◌};
ghost use Rattle.text_reading.specs.Given.{Gives};
ghost use Rattle.sierra_text.specs.Text.{standard};
ghost use Rattle.sierra_text.specs.LabelReading.{Sierra};
ghost use Rattle.sierra_text.specs.Reading.{TakeBytes, comma_at, next_item_at, behind_items_at, one_or_more_at, in_parentheses_at, id_at, var_at, vars_at, param_at};

use crate::ids::{id, var};
use sierra_types::{List, Name};
use std::alloc::Global;
use text_reading::{Stop, is_next, mark};

/// What stands in a list.
pub trait Item: Drop {
    ghost reader: { Sierra Self };

    /// Reads an item.
    fn read(alloc: Global, rest: &mut &[u8]) -> Result<Self, Stop<()>>
        ensures { Gives (λ item. item) result rest.new.now (reader rest.old.now) };
}

/// One item more, behind a `,`.
#[tactic(auto, unfolding(crate::specs::Reading::comma_at))]
fn next_item<T: Item>(alloc: Global, rest: &mut &[u8]) -> Result<T, Stop<()>>
    ensures { Gives (λ item. item) result rest.new.now (next_item_at T.reader rest.old.now) }
{
    mark(rest, b",")?;
    T::read(alloc, rest)
}

/// The rest of a list, behind its first item and up to the byte that closes it.
fn items_behind<T: Item>(
    alloc: Global,
    rest: &mut &[u8],
    first: T,
    close: u8,
) -> Result<List<T>, Stop<()>>
    requires { TakeBytes T.reader }
    ensures { Gives (λ items. items) result rest.new.now (behind_items_at comma_at close T.reader (first ∷ []) rest.old.now) }
{
    let mut items = List::one(first);
    while !is_next(rest, close) {
        let next = next_item(alloc, rest)?;
        items.push(alloc, next)?;
    }
    mark(rest, &[close])?;
    Ok(items)
}

/// One item or more, up to the byte that closes the list.
#[tactic(auto, unfolding(crate::specs::Reading::one_or_more_at))]
pub fn one_or_more<T: Item>(alloc: Global, rest: &mut &[u8], close: u8) -> Result<List<T>, Stop<()>>
    requires { TakeBytes T.reader }
    ensures { Gives (λ items. items) result rest.new.now (one_or_more_at comma_at close T.reader rest.old.now) }
{
    let first = T::read(alloc, rest)?;
    items_behind(alloc, rest, first, close)
}

/// Any number of items in `(` and `)`.
#[tactic(auto, unfolding(crate::specs::Reading::in_parentheses_at, crate::specs::Reading::any_number_at))]
pub fn in_parentheses<T: Item>(alloc: Global, rest: &mut &[u8]) -> Result<List<T>, Stop<()>>
    requires { TakeBytes T.reader }
    ensures { Gives (λ items. items) result rest.new.now (in_parentheses_at T.reader rest.old.now) }
{
    mark(rest, b"(")?;
    if is_next(rest, b')') {
        mark(rest, b")")?;
        Ok(List::new(Vec::new(alloc)))
    } else {
        one_or_more(alloc, rest, b')')
    }
}

/// A variable.
impl Item for u64 {
    ghost reader = { var_at standard };

    fn read(_alloc: Global, rest: &mut &[u8]) -> Result<u64, Stop<()>> {
        var(rest)
    }
}

/// An id.
impl Item for Name {
    ghost reader = { id_at standard };

    fn read(alloc: Global, rest: &mut &[u8]) -> Result<Name, Stop<()>> {
        id(alloc, rest)
    }
}

/// A parameter: a variable and its type.
impl Item for (u64, Name) {
    ghost reader = { param_at standard };

    #[tactic(auto, unfolding(crate::specs::Reading::param_at))]
    fn read(alloc: Global, rest: &mut &[u8]) -> Result<(u64, Name), Stop<()>> {
        let n = var(rest)?;
        mark(rest, b":")?;
        let type_id = id(alloc, rest)?;
        Ok((n, type_id))
    }
}

/// Variables in `(` and `)`.
#[tactic(auto, using(crate::proofs::StandardLists::var_moves), unfolding(crate::specs::Reading::vars_at))]
pub fn vars(alloc: Global, rest: &mut &[u8]) -> Result<List<u64>, Stop<()>>
    ensures { Gives (λ vars. vars) result rest.new.now (vars_at standard rest.old.now) }
{
    in_parentheses(alloc, rest)
}
