//! Each call on its happy path.

use felt64::Felt;
use std::alloc::{AllocError, Global};
use std::collections::VecDeque;
use std::test::Fail;
use type_trees::Num;
use value_trees::{Value, Words, append, element, pop_first};

fn numbers(alloc: Global, ns: &[u64]) -> Result<VecDeque<Value>, AllocError> {
    let mut elements = VecDeque::new(alloc);
    for n in ns {
        elements = append(elements, Value::Gas(*n))?;
    }
    Ok(elements)
}

fn words(alloc: Global) -> Result<Words, AllocError> {
    let mut words = Words::new(alloc);
    for (key, word) in [(5, 1), (2, 7), (5, 9)] {
        words.insert(key, word)?;
    }
    Ok(words)
}

fn of_each_form(alloc: Global) -> Result<Value, AllocError> {
    let mut members = Vec::new(alloc);
    members.push(Value::from_number(Num::Felt64, 70000))?;
    members.push(Value::from_number(Num::U8, 255))?;
    members.push(Value::from_number(Num::U16, 256))?;
    members.push(Value::from_number(Num::U32, 65536))?;
    members.push(Value::from_elements(alloc, numbers(alloc, &[1, 2])?)?)?;
    members.push(Value::from_variant(alloc, 3, Value::Check)?)?;
    members.push(Value::in_box(alloc, Value::Empty)?)?;
    members.push(Value::Dict(words(alloc)?))?;
    members.push(Value::Entry {
        dict: words(alloc)?,
        key: Felt::from(2),
    })?;
    members.push(Value::Squashed(Words::new(alloc)))?;
    Ok(Value::from_members(members))
}

#[test]
fn copies_each_form(rt: HostRuntime) -> Result<(), Fail> {
    let value = of_each_form(rt.alloc())?;
    let copy = value.copy(rt.alloc())?;
    let text = format!(in rt.alloc(); "{copy:?}")?;
    assert_eq!(rt; text, format!(in rt.alloc(); "{value:?}")?);
    for part in [
        "Felt { value: 70000 }",
        "Int { bits: 8, n: 255 }",
        "Int { bits: 16, n: 256 }",
        "Array([Gas(1), Gas(2)])",
        "Enum { index: 3, value: Check }",
        "Boxed(Empty)",
        "{2: 7, 5: 9}",
    ] {
        assert!(rt; text.contains(part), "{part}");
    }
    Ok(())
}

#[test]
fn takes_apart(rt: HostRuntime) -> Result<(), Fail> {
    let members = of_each_form(rt.alloc())?.into_members();
    assert_eq!(rt; members.map(|members| members.len()), Some(10));
    let pair = Value::from_variant(rt.alloc(), 3, Value::Gas(8))?.into_variant();
    assert_eq!(rt;
        pair.map(|pair| (pair.0, pair.1.as_gas())),
        Some((3, Some(8)))
    );
    let inner = Value::in_box(rt.alloc(), Value::from_number(Num::U8, 4))?.into_boxed();
    assert_eq!(rt; inner.map(|inner| inner.as_number()), Some(Some(4)));
    assert!(rt; Value::Check.into_members().is_none() && Value::Check.as_number().is_none());
    let dict = Value::Dict(words(rt.alloc())?).into_dict();
    assert_eq!(rt; dict.map(|dict| dict.len()), Some(2));
    let squashed = Value::Squashed(words(rt.alloc())?).into_squashed();
    assert_eq!(rt; squashed.map(|squashed| squashed.get(5)), Some(Some(9)));
    let key = Felt::from(2);
    let entry = Value::Entry {
        dict: words(rt.alloc())?,
        key,
    }
    .into_entry();
    assert_eq!(rt; entry.map(|entry| entry.1), Some(key));
    assert_eq!(rt;
        words(rt.alloc())?.copy()?.pairs(rt.alloc())?.as_slice(),
        [(2, 7), (5, 9)].as_slice()
    );
    Ok(())
}

#[test]
fn arrays_lose_the_first_and_gain_a_last(rt: HostRuntime) -> Result<(), Fail> {
    let array = Value::from_elements(rt.alloc(), numbers(rt.alloc(), &[4, 5])?)?;
    assert_eq!(rt; array.as_elements().map(|elements| elements.len()), Some(2));
    let copy = array.copy(rt.alloc())?;
    let Some(mut elements) = array.into_elements(rt.alloc())? else {
        return Ok(assert!(rt; false));
    };
    for (first, more) in [(4, 6), (5, 7), (6, 8), (7, 9)] {
        assert_eq!(rt; element(&elements, 0).and_then(|v| v.as_gas()), Some(first));
        assert!(rt; element(&elements, 2).is_none());
        assert_eq!(rt;
            pop_first(&mut elements).and_then(|v| v.as_gas()),
            Some(first)
        );
        elements = append(elements, Value::Gas(more))?;
    }
    drop(pop_first(&mut elements));
    drop(pop_first(&mut elements));
    assert!(rt; pop_first(&mut elements).is_none());
    let elements = copy.into_elements(rt.alloc())?;
    assert_eq!(rt;
        elements
            .as_ref()
            .and_then(|elements| element(elements, 1))
            .and_then(|v| v.as_gas()),
        Some(5)
    );
    Ok(())
}
