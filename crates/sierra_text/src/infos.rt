//! What a declaration says of a type's abilities.

ghost use Rattle.std.specs.Prelude.{◌≡◌};
ghost use Rattle.text_reading.specs.Given.{Gives};
ghost use Rattle.sierra_text.specs.Reading.{bool_at, ability_at, info_at, info_or_nothing_at};

use sierra_types::Info;
use text_reading::{Stop, is_next, mark, word};

/// `true` or `false`.
#[tactic(auto, unfolding(crate::specs::Reading::bool_at))]
fn truth(rest: &mut &[u8]) -> Result<bool, Stop<()>>
    ensures { Gives (λ b. b) result rest.new.now (bool_at rest.old.now) }
{
    if is_next(rest, b't') {
        word(rest, b"true")?;
        Ok(true)
    } else {
        word(rest, b"false")?;
        Ok(false)
    }
}

/// An ability: its word, `:` and whether the type has it.
#[tactic(auto, unfolding(crate::specs::Reading::ability_at))]
fn ability(rest: &mut &[u8], name: &[u8]) -> Result<bool, Stop<()>>
    ensures { Gives (λ b. b) result rest.new.now (ability_at name.now rest.old.now) }
{
    word(rest, name)?;
    mark(rest, b":")?;
    truth(rest)
}

/// The four abilities in `[` and `]`.
#[tactic(auto, unfolding(crate::specs::Reading::info_at, crate::specs::Reading::comma_at))]
fn info(rest: &mut &[u8]) -> Result<Info, Stop<()>>
    ensures { Gives (λ info. info) result rest.new.now (info_at rest.old.now) }
{
    mark(rest, b"[")?;
    let storable = ability(rest, b"storable")?;
    mark(rest, b",")?;
    let drop = ability(rest, b"drop")?;
    mark(rest, b",")?;
    let dup = ability(rest, b"dup")?;
    mark(rest, b",")?;
    let zero_sized = ability(rest, b"zero_sized")?;
    mark(rest, b"]")?;
    Ok(Info {
        storable,
        drop,
        dup,
        zero_sized,
    })
}

/// The four abilities, or nothing.
#[tactic(auto, unfolding(crate::specs::Reading::info_or_nothing_at))]
pub fn info_or_nothing(rest: &mut &[u8]) -> Result<Option<Info>, Stop<()>>
    ensures { Gives (λ info. info) result rest.new.now (info_or_nothing_at rest.old.now) }
{
    if is_next(rest, b'[') {
        let info = info(rest)?;
        Ok(Some(info))
    } else {
        Ok(None)
    }
}
