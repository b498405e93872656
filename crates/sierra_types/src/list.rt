//! Lists of the parts of a program, which contracts see as lists.

ghost use Rattle.std.specs.Prelude.{◌≡◌, ◌∷◌, ◌++◌, [], IfOk, IfErr, OnOk, OnErr};
ghost use Rattle.sierra_types.specs.List.{items_of};

use std::alloc::{AllocError, Global};
use std::marker::Model;
use std::mem;

/// The elements as they are kept. Most lists of a program have one element, which takes no memory of its own.
#[derive(Debug, Drop)]
enum Items<T> {
    One([T; 1]),
    Many(Vec<T>),
}

/// A list, whose elements alone count.
#[derive(Debug, Drop)]
pub struct List<T> {
    items: Items<T>,
}

impl<T> Model for List<T> {
    ghost use Rattle.std.specs.Prelude.{List as ListOf};
    ghost use Rattle.sierra_types.specs.List.{items_of};

    ghost Value = { ListOf T };

    ghost view = { λ l. items_of l.items };
}

impl<T> List<T> {
    /// The list of the elements of a `Vec`. It takes no memory.
    pub fn new(items: Vec<T>) -> List<T>
        ensures { result ≡ items.items }
    {
        List {
            items: Items::Many(items),
        }
    }

    /// The list of one element. It takes no memory.
    pub fn one(item: T) -> List<T>
        ensures { result ≡ item ∷ [] }
    {
        List {
            items: Items::One([item]),
        }
    }

    /// The elements as a slice.
    pub fn items(&self) -> &[T]
        ensures { result.now ≡ self.now }
    {
        match &self.items {
            Items::One(items) => items,
            Items::Many(items) => items,
        }
    }
}

impl<T: Drop> List<T> {
    /// Adds an element at the end.
    pub fn push(&mut self, alloc: Global, item: T) -> Result<(), AllocError>
        ensures ok { OnOk result (self.new ≡ self.old ++ item ∷ []) }
        ensures err { OnErr result (self.new ≡ self.old) }
    {
        let added = match mem::replace(&mut self.items, Items::Many(Vec::new(alloc))) {
            Items::One(items) => two(alloc, items, item),
            Items::Many(items) => more(items, item),
        };
        match added {
            Ok(items) => {
                self.items = items;
                Ok(())
            }
            Err(items) => {
                self.items = items;
                Err(AllocError)
            }
        }
    }
}

/// One element and another one, or the one alone where there is no memory.
fn two<T: Drop>(alloc: Global, items: [T; 1], item: T) -> Result<Items<T>, Items<T>>
    ensures ok { IfOk result (λ added. items_of added ≡ items ++ item ∷ []) }
    ensures err { IfErr result (λ kept. items_of kept ≡ items) }
{
    let Ok(mut both) = Vec::with_capacity(alloc, 4) else {
        return Err(Items::One(items));
    };
    let [first] = items;
    both.push_reserved(first);
    both.push_reserved(item);
    Ok(Items::Many(both))
}

/// Elements and another one, or the others alone where there is no memory.
fn more<T: Drop>(items: Vec<T>, item: T) -> Result<Items<T>, Items<T>>
    ensures ok { IfOk result (λ added. items_of added ≡ items.items ++ item ∷ []) }
    ensures err { IfErr result (λ kept. items_of kept ≡ items.items) }
{
    let mut more = items;
    match more.push(item) {
        Ok(()) => Ok(Items::Many(more)),
        Err(_) => Err(Items::Many(more)),
    }
}
