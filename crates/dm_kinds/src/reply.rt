//! The line of a Reply.

ghost use Rattle.std.specs.Prelude.{◌≡◌};
ghost use Rattle.dm_fields.specs.Fields.{Gives, spelled};
ghost use Rattle.dm_kinds.specs.Kinds.{committed_of, said_site, settled_of, said_of, reply_of};

use crate::cause::refusal_of;
use crate::neat::word_count;
use crate::range::fits_said;
use dm_event::{LineFault, Said, Schema, SiteNo, Step};
use dm_fields::{LineError, is, require, u8_at, u16_at, u32_at, u64_at, unknown_at, word};

#[tactic(auto, unfolding(crate::specs::Kinds::committed_of))]
fn committed_of(neat: bool, words: &[&[u8]]) -> Result<Said, LineError>
    ensures { Gives (λ x. x) result (committed_of neat (spelled words.now)) }
{
    word_count(neat, words, 6)?;
    let site = u8_at(words, 4)?;
    let seq = u64_at(words, 5)?;
    Ok(Said::Committed { site, seq })
}

/// The site of an outcome that says no more.
#[tactic(auto, unfolding(crate::specs::Kinds::said_site))]
fn said_site(neat: bool, words: &[&[u8]]) -> Result<SiteNo, LineError>
    ensures { Gives (λ x. x) result (said_site neat (spelled words.now)) }
{
    word_count(neat, words, 5)?;
    u8_at(words, 4)
}

#[tactic(auto, unfolding(crate::specs::Kinds::settled_of))]
fn settled_of(neat: bool, words: &[&[u8]]) -> Result<Said, LineError>
    ensures { Gives (λ x. x) result (settled_of neat (spelled words.now)) }
{
    word_count(neat, words, 7)?;
    let part = u16_at(words, 4)?;
    let site = u8_at(words, 5)?;
    let epoch = u64_at(words, 6)?;
    Ok(Said::Placed { part, site, epoch })
}

#[tactic(auto, unfolding(crate::specs::Kinds::said_of))]
fn said_of(neat: bool, words: &[&[u8]]) -> Result<Said, LineError>
    ensures { Gives (λ x. x) result (said_of neat (spelled words.now)) }
{
    let said = word(words, 3);
    if is(said, b"committed") {
        committed_of(neat, words)
    } else if is(said, b"read") {
        let site = said_site(neat, words)?;
        Ok(Said::Read { site })
    } else if is(said, b"doubt") {
        let site = said_site(neat, words)?;
        Ok(Said::InDoubt { site })
    } else if is(said, b"placed") {
        settled_of(neat, words)
    } else if is(said, b"restarted") {
        let site = said_site(neat, words)?;
        Ok(Said::Restarted { site })
    } else if is(said, b"refused") {
        Ok(Said::Refused(refusal_of(neat, words)?))
    } else {
        Err(LineError::Fault(unknown_at(words, 3)))
    }
}

/// `reply C N SAID`.
#[tactic(auto, unfolding(crate::specs::Kinds::reply_of))]
pub(crate) fn reply_of(schema: &Schema, neat: bool, words: &[&[u8]]) -> Result<Step, LineError>
    ensures { Gives (λ x. x) result (reply_of schema.now neat (spelled words.now)) }
{
    let said = said_of(neat, words)?;
    let session = u32_at(words, 1)?;
    let number = u32_at(words, 2)?;
    require(
        LineFault::Range,
        Schema::is_session(session) && fits_said(schema, &said),
    )?;
    Ok(Step::Reply {
        session,
        number,
        said,
    })
}
