// The season's count: what a list of texts is, its totals, and what holds of them. Definitions and theorems, in specs/; no functions.
#![tactic(auto)]

// What a list comes to: 0 and its totals, or 25 and zeros; the rules' number, of which the theorems speak (`Counted`).
#[derive(Clone, Copy)]
pub struct Season {
    pub number: u8,
    pub totals: [usize; 24],
}
