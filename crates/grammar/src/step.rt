// One step of the automaton that reads items.
ghost use Rattle.std.specs.Prelude.{◌≡◌, ℕ, List};
ghost use Rattle.lexemes.specs.Texts.{terminal, name_in_text};
ghost use Rattle.grammar.specs.Meanings.{role_in, place_in, step_in, state_in, target_in, callee_in, item_in, arguments_in};
ghost use Rattle.grammar.specs.Automaton.{is_sign, variable_of, function_of, counted, placed, addressed, start, external, named, dotted, valued, called, on_sign, fault, call_item, opening, follow_arguments, follow, step};

use crate::item::{Arguments, Call, Callee, Item, Linkage, Place, Slot, Value};
use crate::state::{Role, State, Step};
use lexemes::lexeme::{Lexeme, Sign, Span, Word, bytes_of};

fn is_sign(lexeme: Lexeme, sign: Sign) -> bool
    ensures { (text : List ℕ) → result ≡ is_sign sign (terminal text lexeme) }
{
    lexeme == Lexeme::Sign(sign)
}

// After a name and "(".
fn opening(role: Role, name: Span) -> Option<Step>
    ensures { (text : List ℕ) → step_in text result ≡ opening (role_in text role) (name_in_text text name) }
{
    let target = match role {
        Role::Target => None,
        Role::Copied(place) => Some(place),
        _ => return None,
    };
    Some(Step::More(State::Called(target, Callee::Direct(name))))
}

// A call, whose result is assigned to the target if there is one.
fn call_item(target: Option<Place>, callee: Callee, arguments: Arguments) -> Item
    ensures { (text : List ℕ) → item_in text result ≡ call_item (target_in text target) (callee_in text callee) (arguments_in text arguments) }
{
    let call = Call { callee, arguments };
    match target {
        Some(place) => Item::Assign(place, Value::Returned(call)),
        None => Item::Invoke(call),
    }
}

// After an argument.
fn follow_arguments(
    target: Option<Place>,
    callee: Callee,
    arguments: Arguments,
    lexeme: Lexeme,
) -> Option<Step>
    ensures { (text : List ℕ) → step_in text result ≡ follow_arguments (target_in text target) (callee_in text callee) (Some (arguments_in text arguments)) (terminal text lexeme) }
{
    if is_sign(lexeme, Sign::Close) {
        Some(Step::More(State::Ended(call_item(target, callee, arguments))))
    } else if is_sign(lexeme, Sign::Comma) && arguments.len() < 6 {
        Some(Step::More(State::Placed(Role::Argument(target, callee, arguments))))
    } else {
        None
    }
}

// After a whole place.
fn follow(role: Role, place: Place, lexeme: Lexeme) -> Option<Step>
    ensures { (text : List ℕ) → step_in text result ≡ follow (role_in text role) (place_in text place) (terminal text lexeme) }
{
    let (sign, step) = match role {
        Role::Target => (Sign::Equals, Step::More(State::Valued(place))),
        Role::Stored => (Sign::Equals, Step::More(State::Placed(Role::Source(place)))),
        Role::Source(to) => (Sign::Semicolon, Step::Done(Item::Store(to, place))),
        Role::Copied(to) => (
            Sign::Semicolon,
            Step::Done(Item::Assign(to, Value::Copy(place))),
        ),
        Role::Loaded(to) => (
            Sign::Semicolon,
            Step::Done(Item::Assign(to, Value::Load(place))),
        ),
        Role::Pointer(target) => (Sign::Close, Step::More(State::Closed(target, place))),
        Role::Argument(target, callee, arguments) => {
            return follow_arguments(target, callee, arguments.push(place)?, lexeme);
        }
    };
    on_sign(lexeme, sign, step)
}

// A step that only this sign allows.
fn on_sign(lexeme: Lexeme, sign: Sign, step: Step) -> Option<Step>
    ensures { (text : List ℕ) → step_in text result ≡ on_sign sign (terminal text lexeme) (step_in text (Some step)) fault }
{
    is_sign(lexeme, sign).then_some(step)
}

// The first lexeme of an item.
fn step_start(lexeme: Lexeme) -> Option<Step>
    ensures { (text : List ℕ) → step_in text result ≡ step start (terminal text lexeme) }
{
    let next = match lexeme {
        Lexeme::Word(Word::Extern) => State::External,
        Lexeme::Word(Word::Var) => State::Variable(Linkage::Defined),
        Lexeme::Word(Word::Fun) => State::Function(Linkage::Defined),
        Lexeme::Sign(Sign::Star) => State::Placed(Role::Stored),
        Lexeme::Sign(Sign::Open) => State::Opened(None),
        Lexeme::Name(name) => State::Named(Role::Target, name),
        _ => return None,
    };
    Some(Step::More(next))
}

// After "extern".
fn step_external(lexeme: Lexeme) -> Option<Step>
    ensures { (text : List ℕ) → step_in text result ≡ step external (terminal text lexeme) }
{
    let next = match lexeme {
        Lexeme::Word(Word::Var) => State::Variable(Linkage::External),
        Lexeme::Word(Word::Fun) => State::Function(Linkage::External),
        _ => return None,
    };
    Some(Step::More(next))
}

// After a place's name.
fn step_named(role: Role, name: Span, lexeme: Lexeme) -> Option<Step>
    ensures { (text : List ℕ) → step_in text result ≡ step (named (role_in text role) (name_in_text text name)) (terminal text lexeme) }
{
    match lexeme {
        Lexeme::Sign(Sign::Stop) => Some(Step::More(State::Dotted(role, name))),
        Lexeme::Sign(Sign::Open) => opening(role, name),
        _ => {
            let slot = Slot::Bare;
            follow(role, Place { base: name, slot }, lexeme)
        }
    }
}

// After a place's name and ".".
fn step_dotted(text: &[u8], role: Role, name: Span, lexeme: Lexeme) -> Option<Step>
    ensures { step_in text.now result ≡ step (dotted (role_in text.now role) (name_in_text text.now name)) (terminal text.now lexeme) }
{
    let slot = match lexeme {
        Lexeme::Number(n) => Slot::Parameter(n),
        Lexeme::Name(after) if bytes_of(text, after) == b"r".as_slice() => {
            Slot::Result(after.from)
        }
        _ => return None,
    };
    Some(Step::More(State::Slotted(role, Place { base: name, slot })))
}

// After "place =".
fn step_valued(place: Place, lexeme: Lexeme) -> Option<Step>
    ensures { (text : List ℕ) → step_in text result ≡ step (valued (place_in text place)) (terminal text lexeme) }
{
    let next = match lexeme {
        Lexeme::Sign(Sign::Ampersand) => State::Addressed(place),
        Lexeme::Sign(Sign::Star) => State::Placed(Role::Loaded(place)),
        Lexeme::Sign(Sign::Open) => State::Opened(Some(place)),
        Lexeme::Name(name) => State::Named(Role::Copied(place), name),
        _ => return None,
    };
    Some(Step::More(next))
}

// After the "(" of a call.
fn step_called(target: Option<Place>, callee: Callee, lexeme: Lexeme) -> Option<Step>
    ensures { (text : List ℕ) → step_in text result ≡ step (called (target_in text target) (callee_in text callee)) (terminal text lexeme) }
{
    let none = Arguments::new();
    let next = match lexeme {
        Lexeme::Sign(Sign::Close) => State::Ended(call_item(target, callee, none)),
        Lexeme::Name(name) => State::Named(Role::Argument(target, callee, none), name),
        _ => return None,
    };
    Some(Step::More(next))
}

// After "var".
fn step_variable(linkage: Linkage, lexeme: Lexeme) -> Option<Step>
    ensures { (text : List ℕ) → step_in text result ≡ step (variable_of linkage) (terminal text lexeme) }
{
    let Lexeme::Name(name) = lexeme else {
        return None;
    };
    Some(Step::More(State::Ended(Item::Variable(linkage, name))))
}

// After "fun".
fn step_function(linkage: Linkage, lexeme: Lexeme) -> Option<Step>
    ensures { (text : List ℕ) → step_in text result ≡ step (function_of linkage) (terminal text lexeme) }
{
    let Lexeme::Name(name) = lexeme else {
        return None;
    };
    Some(Step::More(State::Counted(linkage, name)))
}

// After "fun" and a name.
fn step_counted(linkage: Linkage, name: Span, lexeme: Lexeme) -> Option<Step>
    ensures { (text : List ℕ) → step_in text result ≡ step (counted linkage (name_in_text text name)) (terminal text lexeme) }
{
    let Lexeme::Number(count) = lexeme else {
        return None;
    };
    Some(Step::More(State::Ended(Item::Function(linkage, name, count))))
}

// Where a place is to begin.
fn step_placed(role: Role, lexeme: Lexeme) -> Option<Step>
    ensures { (text : List ℕ) → step_in text result ≡ step (placed (role_in text role)) (terminal text lexeme) }
{
    let Lexeme::Name(name) = lexeme else {
        return None;
    };
    Some(Step::More(State::Named(role, name)))
}

// After "place = &".
fn step_addressed(place: Place, lexeme: Lexeme) -> Option<Step>
    ensures { (text : List ℕ) → step_in text result ≡ step (addressed (place_in text place)) (terminal text lexeme) }
{
    let Lexeme::Name(name) = lexeme else {
        return None;
    };
    Some(Step::More(State::Ended(Item::Assign(place, Value::Address(name)))))
}

pub(crate) fn stepped(text: &[u8], state: State, lexeme: Lexeme) -> Option<Step>
    ensures { step_in text.now result ≡ step (state_in text.now state) (terminal text.now lexeme) }
{
    match state {
        State::Start => step_start(lexeme),
        State::External => step_external(lexeme),
        State::Variable(linkage) => step_variable(linkage, lexeme),
        State::Function(linkage) => step_function(linkage, lexeme),
        State::Counted(linkage, name) => step_counted(linkage, name, lexeme),
        State::Ended(item) => on_sign(lexeme, Sign::Semicolon, Step::Done(item)),
        State::Placed(role) => step_placed(role, lexeme),
        State::Named(role, name) => step_named(role, name, lexeme),
        State::Dotted(role, name) => step_dotted(text, role, name, lexeme),
        State::Slotted(role, place) => follow(role, place, lexeme),
        State::Valued(place) => step_valued(place, lexeme),
        State::Addressed(place) => step_addressed(place, lexeme),
        State::Opened(target) => on_sign(
            lexeme,
            Sign::Star,
            Step::More(State::Placed(Role::Pointer(target))),
        ),
        State::Closed(target, place) => on_sign(
            lexeme,
            Sign::Open,
            Step::More(State::Called(target, Callee::Through(place))),
        ),
        State::Called(target, callee) => step_called(target, callee, lexeme),
    }
}
