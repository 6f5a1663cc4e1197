// What a least-slack queue holds.
mod calls;
mod make;
mod moves;

use discipline::Stay;

// The cells that wait: in a store by port, due slot and number, and by number with their stays. How many wait at each
// port is kept too. Arrays by number, since nothing is allocated while a run goes on. No ghost field calls a queue
// sound, since one over too little memory is a value as well, with open answers.
#[derive(Drop)]
pub struct LeastSlack<T> {
    queue: T,
    stays: [Option<Stay>; 256],
    counts: [usize; 32],
}
