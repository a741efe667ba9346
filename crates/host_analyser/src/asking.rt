// Questions about the rows of a settled engine.
ghost use Rattle.std.specs.Prelude.{◌≡◌, ◌<◌, ◌≤◌, ◌&&◌, IfSome};
ghost use Rattle.constraints.specs.Constraint.{length_of};
ghost use Rattle.constraints.specs.Finite.{any};
ghost use Rattle.constraints.specs.Least.{least};
ghost use Rattle.host_analyser.specs.Objects.{AnswersFor, NextObject};

use engine::Engine;

// Whether the row of v has the object o.
pub(crate) fn has_object<E: Engine>(engine: &mut E, v: u8, o: u8) -> bool
    ensures answer { AnswersFor (E.meaning engine.old) v → 0 < length_of (E.meaning engine.old).system.blocks o → result ≡ least (E.meaning engine.old).system v o }
    ensures stays { E.meaning engine.new ≡ E.meaning engine.old }
{
    engine.holds(u16::from(v), u16::from(o)).unwrap_or(false)
}

// The smallest object at or above `from` in the row of v.
fn next_object<E: Engine>(engine: &mut E, v: u8, from: u16) -> Option<u16>
    ensures bound { IfSome result (λ o. (from ≤ o) × (o < 256)) }
    ensures found { AnswersFor (E.meaning engine.old) v → NextObject (least (E.meaning engine.old).system v) from result }
    ensures stays { E.meaning engine.new ≡ E.meaning engine.old }
{
    engine.next(u16::from(v), from).ok().flatten()
}

// Whether the rows of v and w share an object.
pub(crate) fn share_object<E: Engine>(engine: &mut E, v: u8, w: u8) -> bool
    ensures answer { AnswersFor (E.meaning engine.old) v → AnswersFor (E.meaning engine.old) w → result ≡ any 256 (λ o. least (E.meaning engine.old).system v o && least (E.meaning engine.old).system w o) }
    ensures stays { E.meaning engine.new ≡ E.meaning engine.old }
{
    let mut from = 0;
    while let Some(o) = next_object(engine, v, from) {
        let Some(p) = next_object(engine, w, o) else {
            return false;
        };
        if p == o {
            return true;
        }
        from = p;
    }
    false
}
