// Histories of calls, each from a new analyser over an engine in any state.
ghost use Rattle.std.specs.Prelude.{◌≡◌, IfOk, OnOk};
ghost use Rattle.host_analyser.specs.Books.{new_book};
ghost use Rattle.histories.specs.Books.{next_book, book_from};
ghost use Rattle.histories.specs.Says.{answer_of, Answers, TargetsSays, Says};
ghost use Rattle.histories.specs.Histories.{History, Audited};
ghost use Rattle.host_analyser.specs.States.{book_of};

use crate::{Answer, Call, Progress, Question, Reply};
use engine::Engine;
use host_analyser::{Analyser, Refusal};
use std::alloc::{AllocError, Global};

// What two histories were replied, and then the further calls made of both.
#[derive(Drop)]
pub struct AuditReport {
    pub first: Vec<Reply>,
    pub second: Vec<Reply>,
    pub first_further: Vec<Reply>,
    pub second_further: Vec<Reply>,
}

// A question's result as the reply.
fn answer(outcome: Result<bool, Refusal>) -> Reply
    ensures { result ≡ answer_of outcome }
{
    Ok(Answer::Whether(outcome?))
}

// Asks one question.
fn ask<E: Engine>(analyser: &mut Analyser<E>, question: &Question) -> Reply
    ensures says { Answers (book_of analyser.old) question.now result }
    ensures book { book_of analyser.new ≡ book_of analyser.old }
    ensures rule { (E.meaning analyser.new.engine).rule ≡ (E.meaning analyser.old.engine).rule }
{
    match *question {
        Question::Points { place, name } => answer(analyser.points(place, name)),
        Question::Alias { first, second } => answer(analyser.alias(first, second)),
    }
}

// Makes a targets call on a buffer of its own, which holds what the caller's holds.
fn list<E: Engine>(
    heap: Global,
    analyser: &mut Analyser<E>,
    unit: u32,
    index: u32,
    before: &[u8],
) -> Result<Reply, AllocError>
    ensures says { IfOk result (λ s. TargetsSays (book_of analyser.old) unit index before.now s) }
    ensures book { book_of analyser.new ≡ book_of analyser.old }
    ensures rule { (E.meaning analyser.new.engine).rule ≡ (E.meaning analyser.old.engine).rule }
{
    let mut buffer = before.to_vec(heap)?;
    let outcome = analyser.targets(unit, index, &mut buffer);
    Ok(Ok(Answer::Listed { outcome, buffer }))
}

// Makes one call.
fn make<E: Engine>(
    heap: Global,
    analyser: &mut Analyser<E>,
    call: &Call,
) -> Result<Reply, AllocError>
    ensures says { IfOk result (λ s. Says (E.meaning analyser.old.engine).rule (book_of analyser.old) call.now s) }
    ensures after { book_of analyser.new ≡ next_book (E.meaning analyser.old.engine).rule (book_of analyser.old) call.now }
    ensures rule { (E.meaning analyser.new.engine).rule ≡ (E.meaning analyser.old.engine).rule }
{
    match *call {
        Call::Settle => Ok(analyser.settle().map(|()| Answer::Settled)),
        Call::Load { unit, text } => Ok(analyser.load(unit, text).map(|()| Answer::Loaded)),
        Call::Unload { unit } => Ok(analyser.unload(unit).map(|()| Answer::Unloaded)),
        Call::Ask(question) => Ok(ask(analyser, &question)),
        Call::Targets {
            unit,
            index,
            buffer,
        } => list(heap, analyser, unit, index, buffer),
    }
}

// Makes the calls in order, from the analyser as the calls before left it.
fn run<E: Engine, P: Progress>(
    heap: Global,
    analyser: &mut Analyser<E>,
    calls: &[Call],
    progress: &mut P,
) -> Result<Vec<Reply>, AllocError>
    ensures says { IfOk result (λ v. History (E.meaning analyser.old.engine).rule (book_of analyser.old) calls.now v.items) }
    ensures after { OnOk result (book_of analyser.new ≡ book_from (E.meaning analyser.old.engine).rule (book_of analyser.old) calls.now) }
    ensures rule { OnOk result ((E.meaning analyser.new.engine).rule ≡ (E.meaning analyser.old.engine).rule) }
{
    let mut replies = Vec::new(heap);
    for c in calls {
        replies.push(make(heap, analyser, c)?)?;
        progress.made(replies.len());
    }
    Ok(replies)
}

// Replays a history from a new analyser. Every reply is the one that the book of the calls before it calls for,
// and a refused call changes no standing text.
pub fn replay<E: Engine + Drop, P: Progress>(
    heap: Global,
    engine: E,
    history: &[Call],
    progress: &mut P,
) -> Result<Vec<Reply>, AllocError>
    ensures { IfOk result (λ v. History (E.meaning engine).rule new_book history.now v.items) }
{
    let mut analyser = Analyser::new(engine);
    run(heap, &mut analyser, history, progress)
}

// Replays two histories, each from a new analyser over an engine of its own, and makes the further calls of both.
pub fn audit<E: Engine + Drop, F: Engine + Drop, P: Progress>(
    heap: Global,
    one: E,
    calls: &[Call],
    other: F,
    others: &[Call],
    further: &[Call],
    progress: &mut P,
) -> Result<AuditReport, AllocError>
    ensures { IfOk result (λ a. Audited (E.Engine.meaning one).rule (F.Engine.meaning other).rule calls.now others.now further.now a) }
{
    let mut host = Analyser::new(one);
    let first = run(heap, &mut host, calls, progress)?;
    let first_further = run(heap, &mut host, further, progress)?;
    let mut fresh = Analyser::new(other);
    let second = run(heap, &mut fresh, others, progress)?;
    let second_further = run(heap, &mut fresh, further, progress)?;
    Ok(AuditReport {
        first,
        second,
        first_further,
        second_further,
    })
}
