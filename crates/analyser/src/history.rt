// Histories of calls, each from a new analyser.
ghost use Rattle.std.specs.Prelude.{◌≡◌, IfOk, OnOk};
ghost use Rattle.analyser.specs.Books.{new_book};
ghost use Rattle.analyser.specs.Histories.{next_book, book_from, Says, History, Audited};
ghost use Rattle.analyser.specs.States.{book_of};

use crate::{Analyser, Call, Done, Reply};
use std::alloc::{AllocError, Global};

// What two histories were replied, and then the further questions asked of both.
#[derive(Drop)]
pub struct AuditReport {
    pub first: Vec<Reply>,
    pub second: Vec<Reply>,
    pub first_further: Vec<Reply>,
    pub second_further: Vec<Reply>,
}

// Makes one call.
fn make(analyser: &mut Analyser, call: &Call) -> Reply
    ensures says { Says (book_of analyser.old) call.now result }
    ensures after { book_of analyser.new ≡ next_book (book_of analyser.old) call.now }
{
    match *call {
        Call::Load { unit, text } => analyser.load(unit, text).map(|()| Done::Loaded),
        Call::Unload { unit } => analyser.unload(unit).map(|()| Done::Unloaded),
    }
}

// Makes the calls in order, from the analyser as the calls before left it.
fn run(heap: Global, analyser: &mut Analyser, calls: &[Call]) -> Result<Vec<Reply>, AllocError>
    ensures says { IfOk result (λ v. History (book_of analyser.old) calls.now v.items) }
    ensures after { OnOk result (book_of analyser.new ≡ book_from (book_of analyser.old) calls.now) }
{
    let mut replies = Vec::new(heap);
    for c in calls {
        replies.push(make(analyser, c))?;
    }
    Ok(replies)
}

// Replays a history from a new analyser. Every reply is the one that the book of the calls before it calls for,
// and a refused call changes no standing text.
// Not inlined, so that the analyser is on the stack during this call alone.
#[inline(never)]
pub fn replay(heap: Global, history: &[Call]) -> Result<Vec<Reply>, AllocError>
    ensures { IfOk result (λ v. History new_book history.now v.items) }
{
    let mut analyser = Analyser::new();
    run(heap, &mut analyser, history)
}

// Replays a history from a new analyser, and then asks it the further questions.
// Apart from `audit` and not inlined, so that one analyser at a time is on the stack.
#[inline(never)]
fn replay_and_ask(
    heap: Global,
    calls: &[Call],
    further: &[Call],
) -> Result<(Vec<Reply>, Vec<Reply>), AllocError>
    ensures replies { IfOk result (λ r. History new_book calls.now r.0.items) }
    ensures asked { IfOk result (λ r. History (book_from new_book calls.now) further.now r.1.items) }
{
    let mut analyser = Analyser::new();
    let replies = run(heap, &mut analyser, calls)?;
    let asked = run(heap, &mut analyser, further)?;
    Ok((replies, asked))
}

// Replays two histories, each from a new analyser, and asks both the further questions.
pub fn audit(
    heap: Global,
    calls: &[Call],
    others: &[Call],
    further: &[Call],
) -> Result<AuditReport, AllocError>
    ensures { IfOk result (λ a. Audited calls.now others.now further.now a) }
{
    let (first, first_further) = replay_and_ask(heap, calls, further)?;
    let (second, second_further) = replay_and_ask(heap, others, further)?;
    Ok(AuditReport {
        first,
        second,
        first_further,
        second_further,
    })
}
