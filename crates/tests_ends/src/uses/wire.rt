//! A wire between two sessions, in memory.
use dccp_uses::Network;
use std::alloc::Global;

// Which frames a wire loses, and in which order it gives the others.
#[derive(Clone, Copy)]
enum Loss {
    // It loses one frame of four, and gives the others in any order, by draws.
    Drawn(u64),
    // It loses this many more frames, and then none; in order.
    Next(usize),
}

/// Keeps frames until they are taken, except those that it loses.
#[derive(Drop)]
pub(crate) struct Wire {
    alloc: Global,
    frames: Vec<Vec<u8>>,
    loss: Loss,
}

// The draw after this one (Knuth's MMIX generator).
fn next_draw(draw: u64) -> u64 {
    draw.wrapping_mul(6_364_136_223_846_793_005)
        .wrapping_add(1_442_695_040_888_963_407)
}

impl Loss {
    // The next draw, below 2^31; 0 if none are made.
    fn draw(&mut self) -> usize {
        match *self {
            Loss::Drawn(last) => {
                let next = next_draw(last);
                *self = Loss::Drawn(next);
                (next >> 33) as usize
            }
            Loss::Next(_) => 0,
        }
    }
}

impl Wire {
    /// It loses one frame of four, and gives them in any order, by draws from this number.
    pub(crate) fn drawn(alloc: Global, seed: u64) -> Wire {
        Wire {
            alloc,
            frames: Vec::new(alloc),
            loss: Loss::Drawn(seed),
        }
    }

    /// It loses nothing, and gives frames in order.
    pub(crate) fn whole(alloc: Global) -> Wire {
        Wire {
            alloc,
            frames: Vec::new(alloc),
            loss: Loss::Next(0),
        }
    }

    /// From now on it loses this many frames, and then none.
    pub(crate) fn lose(&mut self, frames: usize) {
        self.loss = Loss::Next(frames);
    }

    fn loses(&mut self) -> bool {
        match self.loss {
            Loss::Drawn(_) => self.loss.draw() % 4 == 0,
            Loss::Next(0) => false,
            Loss::Next(frames) => {
                self.loss = Loss::Next(frames - 1);
                true
            }
        }
    }

    /// A frame that gets to the other side.
    pub(crate) fn take(&mut self) -> Option<Vec<u8>> {
        if self.frames.is_empty() {
            return None;
        }
        let place = self.loss.draw() % self.frames.len();
        Some(self.frames.remove(place))
    }

    fn keep(&mut self, frame: &[u8]) {
        let mut bytes = Vec::new(self.alloc);
        if bytes.extend_from_slice(frame).is_ok() {
            let _ = self.frames.push(bytes);
        }
    }
}

impl Network for Wire {
    // The wire does not say what it loses.
    ghost sends = { λ _ _ _. Unit {0} };

    fn send(&mut self, frame: &[u8]) {
        if !self.loses() {
            self.keep(frame);
        }
    }
}
