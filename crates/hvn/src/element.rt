// What constraints bring to a component, as columns.
ghost use Rattle.std.specs.Prelude.{◌≡◌, ◌<◌};
ghost use Rattle.constraints.specs.Constraint.{left_of};
ghost use Rattle.flows.specs.Names.{NamesBelow};
ghost use Rattle.hvn.specs.Columns.{copied, column_number, element_number};

use crate::flow::Flow;
use constraints::Constraint;

// The column of the value that a copy from q brings to the component of v.
fn copied_column(flow: &Flow, number: &[u16; 256], v: usize, q: usize) -> Option<usize>
    requires of { v < 256 }
    requires from { q < 256 }
    ensures { column_number result ≡ copied flow.now.reach.words number.now v q }
{
    if flow.is_member(v, q) {
        None
    } else {
        usize::from(number[q]).checked_sub(1)
    }
}

// The variable on the left of the constraint.
pub fn left_of(constraint: Constraint) -> usize
    ensures { result ≡ left_of constraint }
{
    match constraint {
        Constraint::Address { left, .. }
        | Constraint::Copy { left, .. }
        | Constraint::Load { left, .. }
        | Constraint::Store { left, .. } => usize::from(left),
    }
}

// The column of what the constraint brings to the component of v.
pub fn element_of(
    flow: &Flow,
    number: &[u16; 256],
    v: usize,
    constraint: Constraint,
) -> Option<usize>
    requires of { v < 256 }
    requires names { NamesBelow 256 constraint }
    ensures { column_number result ≡ element_number flow.now.reach.words number.now v constraint }
{
    match constraint {
        Constraint::Address { left, object } => flow
            .is_member(v, usize::from(left))
            .then_some(usize::from(object)),
        Constraint::Copy { left, right } => {
            if flow.is_member(v, usize::from(left)) {
                copied_column(flow, number, v, usize::from(right))
            } else {
                None
            }
        }
        Constraint::Load {
            left,
            right,
            offset,
        } => {
            let column = 512 + 8 * usize::from(right) + usize::from(offset);
            flow.is_member(v, usize::from(left)).then_some(column)
        }
        Constraint::Store { .. } => None,
    }
}
