// The lines of a suite, one after another.
use std::alloc::Global;

/// What plays a suite.
pub trait Plays: Drop {
    /// Nothing is played yet.
    fn new(alloc: Global) -> Self;

    /// Takes a line of the suite.
    fn take_line(&mut self, line: &[u8]);

    /// The suite has ended: what is printed of it.
    fn finish(&mut self) -> Vec<u8>;
}

// Plays the lines of a suite in order.
fn play_lines<P: Plays>(player: &mut P, suite: &[u8]) -> Vec<u8> {
    for line in suite.split(|byte| *byte == b'\n') {
        player.take_line(line);
    }
    player.finish()
}

/// What is printed of a suite.
pub fn played<P: Plays>(alloc: Global, suite: &[u8]) -> Vec<u8> {
    let mut player = P::new(alloc);
    play_lines(&mut player, suite)
}
