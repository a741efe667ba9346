// What a layer works out before it hands down: representatives and the words that are left.
use arrayvec::ArrayVec;
use constraints::ConstraintList;

#[derive(Drop)]
pub struct Plan {
    pub own: ConstraintList,
    // the variable that stands for each
    pub reps: ArrayVec<u16, 256>,
    // the words that are left
    pub remaining: ArrayVec<u32, 512>,
}
