// What a search among crossings found.

// A crossing, by its stored coordinates.
#[derive(Clone, Copy)]
pub struct Crossing {
    pub x: u16,
    pub y: u16,
}

// The greatest gain so far, and the crossing that has it; none while no crossing saves anything.
#[derive(Clone, Copy)]
pub struct Greatest {
    pub gain: u64,
    pub best: Option<Crossing>,
}
