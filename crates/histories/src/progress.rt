// Long histories show how far they are.
pub trait Progress {
    // Told after each call of a history how many of its calls have been made.
    fn made(&mut self, calls: usize);
}
