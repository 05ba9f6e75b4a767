// A text that arrives in parts: what is kept between two calls, what a part leaves, what the finish answers, and what holds of them. Definitions and
// theorems, in specs/; no functions.
#![tactic(auto)]

// What is kept between two calls, beside the buffer: how many of its first bytes are taken, up to which place they are UTF-8, and whether a part was
// left out because the text would pass the limit.
#[derive(Clone, Copy)]
pub struct Upload {
    pub count: usize,
    pub valid: usize,
    pub over: bool,
}

// What a part leaves: 16 or 0, the rules' number, of which the theorems speak (`Part`), and what is kept.
#[derive(Clone, Copy)]
pub struct Taken {
    pub number: u8,
    pub state: Upload,
}
