//! One question to what is published.
ghost use Rattle.std.specs.Prelude.{◌≡◌, IfOk, MatchResult, Some};
ghost use Rattle.left_right.specs.Sides.{view};
ghost use Rattle.rules.specs.Answers.{reply};
ghost use Rattle.query.specs.Published.{applied_all};
ghost use Rattle.query.specs.Rule.{Takes};
ghost use Rattle.query.specs.declared.shown.Told.{Told};

use crate::answers::{QueryFault, Reply};
use crate::front::Front;
use crate::question::Question;
use crate::shown::{Sees, ShownReader, ShownReading};
use core::mem::replace_with;
use std::alloc::AllocError;
use world::World;

/// What was taken, and the answer that it gives.
pub(crate) type Asked<A> = Result<(Front, Reply<A>), QueryFault>;

/// Takes what was published last. The reader comes back where the publisher was closed; or where more is known than is
/// published, which doesn't happen.
fn enter(reader: ShownReader, known: &Front) -> Result<(ShownReading, Front), ShownReader>
    requires { (told : Told) × (view reader.place ≡ Some told) × (told.front.book ≡ known.now.book) }
    ensures place { MatchResult result (λ r. view r.0.place ≡ view reader.place) (λ r. view r.place ≡ view reader.place) }
    ensures takes { IfOk result (λ r. (told : Told) → view reader.place ≡ Some told → Takes told known.now r.1) }
    ensures world { IfOk result (λ r. (told : Told) → view reader.place ≡ Some told → r.0.part.value.world ≡ applied_all told.base r.1.list) }
{
    let reading = reader.enter_as::<Sees>()?;
    let front = reading.get().front.again();
    if known.begins(&front) {
        Ok((reading, front))
    } else {
        Err(reading.leave())
    }
}

fn replied<Q: Question>(world: &World, question: &Q) -> Result<Reply<Q::Answer>, AllocError>
    ensures { IfOk result (λ r. r ≡ reply world.now (Q.answer_in question.now world.now)) }
{
    let answer = question.ask(world)?;
    Ok(Reply {
        height: world.height(),
        header_hash: world.header_hash(),
        commit_hash: world.commit_hash(),
        answer,
    })
}

fn asked<Q: Question>(
    reader: ShownReader,
    known: Front,
    question: Q,
) -> (ShownReader, Asked<Q::Answer>)
    requires { (told : Told) × (view reader.place ≡ Some told) × (told.front.book ≡ known.book) }
    ensures place { view result.0.place ≡ view reader.place }
    ensures takes { IfOk result.1 (λ t. (told : Told) → view reader.place ≡ Some told → Takes told known t.0) }
    ensures reply { IfOk result.1 (λ t. (told : Told) → view reader.place ≡ Some told → t.1 ≡ reply (applied_all told.base t.0.list) (Q.answer_in question (applied_all told.base t.0.list))) }
{
    match enter(reader, &known) {
        Err(reader) => (reader, Err(QueryFault::NoEntry)),
        Ok((reading, front)) => {
            let reply = replied(&reading.get().world, &question);
            let reader = reading.leave();
            match reply {
                Ok(reply) => (reader, Ok((front, reply))),
                Err(_) => (reader, Err(QueryFault::Memory)),
            }
        }
    }
}

/// Asks, and tells what was known before what is answered.
pub(crate) fn ask<Q: Question>(
    reader: &mut ShownReader,
    known: Front,
    question: Q,
) -> Asked<Q::Answer>
    requires { (told : Told) × (view reader.old.place ≡ Some told) × (told.front.book ≡ known.book) }
    ensures place { view reader.new.place ≡ view reader.old.place }
    ensures takes { IfOk result (λ t. (told : Told) → view reader.old.place ≡ Some told → Takes told known t.0) }
    ensures reply { IfOk result (λ t. (told : Told) → view reader.old.place ≡ Some told → t.1 ≡ reply (applied_all told.base t.0.list) (Q.answer_in question (applied_all told.base t.0.list))) }
{
    replace_with(reader, (known, question), |reader, (known, question)| {
        asked(reader, known, question)
    })
}
